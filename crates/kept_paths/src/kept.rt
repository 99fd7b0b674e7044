//! The paths that are kept of a set, with bounds that tell at one look that a path would not be kept.

ghost use Rattle.std.specs.Prelude.{◌≡◌, ◌<◌, ◌↔◌, All, Contains, IfOk, IsTrue, OnErr, OnOk, [], get_or, length, map};
ghost use Rattle.pareto.specs.work.Front as fronts;
ghost use Rattle.pareto.specs.work.Front.{AreKeptOr};
ghost use Rattle.plan_tree.specs.work.Views.{is_path_at_most, path};
ghost use Rattle.kept_paths.specs.work.Bounds.{AreEarlyOf, AreToldOf, IsBeaten, TellsBeaten};

use crate::bounds::{Bounds, add_rooms, is_beaten, lower_each, place_of};
use cost_rules::Pair;
use pareto::{Front, Ranked};
use pathkeys::Keys;
use pg_base::Memory;
use plan_tree::Path;
use smallvec::SmallVec;
use std::alloc::{AllocError, Global};
use std::collections::BTreeMap;
use std::marker::Model;

/// Paths that were offered, with bounds on what they cost. Contracts see the paths.
#[derive(Drop)]
pub struct KeptPaths {
    paths: Vec<Path>,
    bounds: Bounds,
}

impl Model for KeptPaths {
    ghost use Rattle.std.specs.Prelude.{List, map};
    ghost use Rattle.std.specs.Coded.{codes};
    ghost use Rattle.plan_tree.specs.work.Views.{path};
    ghost use Rattle.plan_tree.specs.contracts.plan.Plan as planned;
    ghost use Rattle.plan_tree.specs.declared.path.Path as costed;
    ghost use Rattle.kept_paths.specs.work.Bounds.{AreBounds};

    ghost Value = { List costed.Path };

    ghost coded = { Prim.hlevel (codes, planned.the_row.coded) };

    ghost view = { λ k. k.paths.items };

    ghost invariant = { λ k. AreBounds (map path k.paths.items) k.bounds };
}

/// The numbers of the classes of a list. The error means out of memory.
fn numbers_of(alloc: Global, keys: &Keys) -> Result<SmallVec<u16, 4>, Memory>
    ensures { IfOk result (λ ns. ns.items ≡ keys.now) }
{
    let mut numbers = SmallVec::new(alloc);
    for class in keys.items() {
        numbers.push(class.0)?;
    }
    Ok(numbers)
}

/// Whether a path may take the place of the one at a place, if there is one.
fn gives_way(paths: &[Path], at: usize, made: &Path) -> bool
    ensures within { IsTrue result → at < length paths.now }
    ensures most { IsTrue result → IsTrue (is_path_at_most made.now (get_or paths.now at made.now)) }
{
    if at >= paths.len() {
        return false;
    }
    made.at_most(&paths[at])
}

/// Puts a path behind the others. The error means out of memory.
fn push(paths: &mut Vec<Path>, made: Path) -> Result<(), Memory>
    ensures kept { AreKeptOr paths.old.items made paths.new.items }
    ensures covered { All (fronts.IsCovered is_path_at_most paths.new.items) paths.old.items }
    ensures offered { OnOk result (Contains paths.new.items made) }
    ensures err { OnErr result (paths.new.items ≡ paths.old.items) }
{
    paths.push(made)?;
    Ok(())
}

/// Puts a path at a place, where it may take the place of the one there, else behind the others, and tells where. The error
/// means out of memory.
fn put(paths: &mut Vec<Path>, at: usize, made: Path) -> Result<usize, Memory>
    ensures kept { AreKeptOr paths.old.items made paths.new.items }
    ensures covered { All (fronts.IsCovered is_path_at_most paths.new.items) paths.old.items }
    ensures offered { OnOk result (Contains paths.new.items made) }
    ensures err { OnErr result (paths.new.items ≡ paths.old.items) }
{
    if gives_way(paths, at, &made) {
        paths[at] = made;
        return Ok(at);
    }
    let last = paths.len();
    push(paths, made)?;
    Ok(last)
}

/// Keeps a path, in the place of one with the same keys where it may take it, and notes what it costs. The error means out of
/// memory, and all is as before.
fn keep(alloc: Global, paths: &mut Vec<Path>, bounds: &mut Bounds, made: Path) -> Result<(), Memory>
    ensures kept { AreKeptOr paths.old.items made paths.new.items }
    ensures covered { All (fronts.IsCovered is_path_at_most paths.new.items) paths.old.items }
    ensures offered { OnOk result (Contains paths.new.items made) }
    ensures err { OnErr result (paths.new.items ≡ paths.old.items) }
    ensures told { AreToldOf paths.old.items bounds.old → AreToldOf paths.new.items bounds.new }
    ensures early { AreEarlyOf paths.old.items bounds.old → AreEarlyOf paths.new.items bounds.new }
{
    let cost = Pair {
        startup: made.startup,
        total: made.cost,
    };
    let list = numbers_of(alloc, &made.keys)?;
    add_rooms(alloc, bounds, list.as_slice())?;
    let place = place_of(bounds, list.as_slice()).unwrap_or(paths.len());
    let at = put(paths, place, made)?;
    lower_each(bounds, list.as_slice(), cost, at);
    Ok(())
}

/// Lets go of a path that no memory was left for.
fn refused(_back: Path) -> Memory {
    AllocError
}

/// Offers a path to a front. The error means out of memory.
fn offer_to(front: &mut Front<Path>, made: Path) -> Result<(), Memory>
    ensures kept { OnOk result (AreKeptOr front.old made front.new) }
    ensures covered { OnOk result (All (fronts.IsCovered is_path_at_most front.new) front.old) }
    ensures offered { OnOk result (fronts.IsCovered is_path_at_most front.new made) }
{
    match front.offer(made) {
        Ok(()) => Ok(()),
        Err(back) => Err(refused(back)),
    }
}

/// The front of some paths. The error means out of memory.
fn front_of(alloc: Global, paths: Vec<Path>) -> Result<Front<Path>, Memory>
    ensures some { IfOk result (λ f. All (Contains paths.items) f) }
    ensures covered { IfOk result (λ f. All (fronts.IsCovered is_path_at_most f) paths.items) }
{
    let mut front = Front::new(alloc);
    for made in paths {
        offer_to(&mut front, made)?;
    }
    Ok(front)
}

impl KeptPaths {
    /// No paths. It takes no memory until one is offered.
    pub fn new(alloc: Global) -> KeptPaths
        ensures { result ≡ [] }
    {
        KeptPaths {
            paths: Vec::new(alloc),
            bounds: BTreeMap::new(alloc),
        }
    }

    /// Whether some path costs no more, neither before its first row nor in all, with keys that begin with these: where it says
    /// yes there is one, and where no path has a startup it says yes if there is one. Where all are of one set and
    /// parameterisation, such a path is at most each one of that cost and these keys. The error means out of memory.
    pub fn is_beaten(&self, alloc: Global, cost: Pair, by: &Keys) -> Result<bool, Memory>
        ensures sound { IfOk result (λ b. IsTrue b → IsBeaten (map path self.now) cost by.now) }
        ensures exact { IfOk result (λ b. TellsBeaten self.now cost by.now b) }
    {
        let list = numbers_of(alloc, by)?;
        Ok(is_beaten(&self.bounds, list.as_slice(), cost))
    }

    /// Keeps a path. One that it is at most may be let go of. The error means out of memory, and all is as before.
    pub fn offer(&mut self, alloc: Global, made: Path) -> Result<(), Memory>
        ensures kept { AreKeptOr self.old made self.new }
        ensures covered { All (fronts.IsCovered is_path_at_most self.new) self.old }
        ensures offered { OnOk result (Contains self.new made) }
        ensures err { OnErr result (self.new ≡ self.old) }
    {
        keep(alloc, &mut self.paths, &mut self.bounds, made)
    }

    /// The paths.
    pub fn into_paths(self) -> Vec<Path>
        ensures { result.items ≡ self }
    {
        self.paths
    }

    /// The front of the paths: some of them, none at most another one, and each path has one that is at most it. The error
    /// means out of memory.
    pub fn into_front(self, alloc: Global) -> Result<Front<Path>, Memory>
        ensures some { IfOk result (λ f. All (Contains self) f) }
        ensures covered { IfOk result (λ f. All (fronts.IsCovered is_path_at_most f) self) }
    {
        front_of(alloc, self.paths)
    }
}
