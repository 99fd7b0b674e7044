//! Laws of the worlds that scripts reach, and of what is asked in them.

ghost use Rattle.std.specs.Prelude.{◌++◌, ◌∷◌, ◌≤◌, ℕ, List, length};
ghost use Rattle.pg_base.specs.declared.limits.TheConstants.{MOST_SCRIPT_BYTES};
ghost use Rattle.statements.specs.Scripts.{AreFirst, Worked};
ghost use Rattle.world_laws.specs.LawfulWorlds.{IsLawfulWorld};
ghost use Rattle.script_laws.specs.Reached.{AreGroupsBoundIn, IsBoundIn, reached};

/// Behind statements that are worked from no table on, the definitions are lawful, and beside each table stand lawful rows.
pub fn reached_worlds_are_lawful()
    ensures { (text : List ℕ) (before : List Worked) → AreFirst text before →
        IsLawfulWorld (reached before) }
{}

/// The queries that a statement asks, but for one that groups, are well bound to the catalogue of its world.
pub fn asked_queries_are_well_bound()
    ensures { (text : List ℕ) (before behind : List Worked) (s : Worked) →
        AreFirst text (before ++ s ∷ behind) → IsBoundIn (reached before).contents s.action }
{}

/// The query of a statement that groups is well grouped over the catalogue of its world, in a text that is no longer than a script
/// may be.
pub fn asked_groups_are_well_grouped()
    ensures { (text : List ℕ) (before behind : List Worked) (s : Worked) →
        length text ≤ MOST_SCRIPT_BYTES → AreFirst text (before ++ s ∷ behind) →
        AreGroupsBoundIn (reached before).contents s.action }
{}
