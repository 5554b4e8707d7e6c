ghost use Rattle.std.specs.Prelude.{ℕ, List};
ghost use Rattle.st_apply.specs.Laws.{IdleLeaves, OneMoreStep, StepsResolve, FoldIsWalk, GoesOn, LeavesIt, OneMore, SeenAlike, StaysDeactivated, WalksLead, GivenAscend};
ghost use Rattle.st_apply.specs.Codes.{Rules, Seen};

/// Resolution from nothing, which follows the commitments, equals one step for each operation in
/// the order of their places; with related laws. `H`, `D` and `I` are hashes, documents and
/// operations of any type.
pub fn resolution_laws<H, D, I>()
    ensures fold_is_walk { (rules : Rules H D) (place : I → ℕ) (seen : I → Seen H D)
        → FoldIsWalk rules place seen }
    ensures goes_on { (rules : Rules H D) (place : I → ℕ) (seen : I → Seen H D)
        → GoesOn rules place seen }
    ensures one_more { (rules : Rules H D) (place : I → ℕ) (seen : I → Seen H D)
        → OneMore rules place seen }
    ensures walks_lead { (rules : Rules H D) (place : I → ℕ) (seen : I → Seen H D) (items : List I)
        → WalksLead rules place seen items }
    ensures stays_deactivated { (rules : Rules H D) (place : I → ℕ) (seen : I → Seen H D)
        → StaysDeactivated rules place seen }
    ensures leaves_it { (rules : Rules H D) → LeavesIt rules }
{}

/// Operations that are seen alike resolve alike, also for two types and at different places.
pub fn alike_law<H, D, I, J>()
    ensures { (rules : Rules H D) (place : I → ℕ) (seen : I → Seen H D) (place' : J → ℕ) (seen' : J → Seen H D)
        → SeenAlike rules place seen place' seen' }
{}

/// The items given by entries have ascending places: at most one item per entry, at the entry's
/// number.
pub fn given_law<E, I>()
    ensures { GivenAscend E I }
{}

/// Resolving anchored operations in ascending places equals one `apply` for each, from
/// `DidState::absent` on and at the limits of their heights. So one more operation after all others
/// is one more `apply`, and one that does not act changes nothing.
pub fn anchored_law()
    ensures steps { StepsResolve }
    ensures one_more { OneMoreStep }
    ensures idle { IdleLeaves }
{}
