//! What the rows that a scan comes to mean for its plan.

ghost use Rattle.std.specs.Prelude.{◌≡◌, ◌≤◌, ◌+◌, map};
ghost use Rattle.sql_query.specs.Queries.{Query};
ghost use Rattle.sql_query.specs.Tuples.{Tuple, one_row};
ghost use Rattle.sql_query.specs.Worlds.{World};
ghost use Rattle.plan_tree.specs.Counts.{fetches, given_looks, looks};
ghost use Rattle.plan_tree.specs.Plans.{Plan};
ghost use Rattle.plan_tree.specs.Run.{run};
ghost use Rattle.plan_tree.specs.Space.{IsBuilt};
ghost use Rattle.scan_exec.specs.Coming.{coming, owed};
ghost use Rattle.scan_exec.specs.work.Coming.{looks_allowed, rows_to_come};
ghost use Rattle.scan_exec.specs.work.Plans.{IsScan, param_set, relation_of};

/// Of the rows that a scan comes to those that are given are the rows of its plan, the fetched ones are its fetches, and its
/// looks allow one for each entry beside those at the rows that it is given.
pub fn scans_come_to_their_rows()
    ensures rows { (w : World) (q : Query) (p : Plan) (o : Tuple) → IsScan p →
        map (one_row q (relation_of p).0) (rows_to_come (coming w q p o)) ≡ run w q p o }
    ensures fetches { (w : World) (q : Query) (p : Plan) (o : Tuple) → IsScan p →
        owed (coming w q p o) ≡ fetches w q p o }
    ensures looks { (w : World) (q : Query) (p : Plan) (o : Tuple) →
        IsScan p → IsBuilt w.contents q p →
        looks_allowed (coming w q p o) + given_looks w q (param_set p) ≤ looks w q p o }
{}
