//! The drain ends, whatever rules the transactions follow.
ghost use Rattle.std.specs.Prelude.{◌≡◌, ℕ, ◌+◌, ◌<◌, ◌≤◌, List, [], ◌∷◌, ◌++◌, length};
ghost use Rattle.std.specs.List.{AllByRecursion};
ghost use Rattle.fp_model.specs.declared.events.Event.{Event};
ghost use Rattle.fp_model.specs.History.{History};
ghost use Rattle.fp_model.specs.Rules.{Rules};
ghost use Rattle.fp_model.specs.Machine.{Machine, at_rest};
ghost use Rattle.fp_model.specs.Turns.{Environment, Turn};
ghost use Rattle.fp_model.specs.Runs.{RunStep, TakesOf, Runs, round, IsDrained, Drains, DrainsInPart};
ghost use Rattle.serial_order.specs.Laws.{View, Laws};
ghost use Rattle.serial_order.specs.Kept.{Kept};
ghost use Rattle.drain_laws.specs.Measure.{Gauge, line_weight, messages_in, unsealed_in, work_with, work_left, lines_held, active_in, work_of};
ghost use Rattle.drain_laws.specs.Live.{EndLaws, IsLive, IsReached};
ghost use Rattle.drain_laws.specs.Rounds.{AreFair, GoesRound, GoesRounds, RoundMoves};

/// What the end of the drain rests on is so of a machine at rest behind any history, and each turn keeps it, whatever
/// befalls it. It doesn't depend on the lines that are left, and where the serial order is kept, a part of it is so.
pub fn nothing_waits_in_vain()
    ensures rest { (rules : Rules) (gauge : Gauge) (lines : List (List ℕ)) (h : History)
        → IsReached rules gauge (at_rest rules lines h) }
    ensures turn { (rules : Rules) (gauge : Gauge) (view : View)
        → (m : Machine) (event : Event) (environment : Environment) (m2 : Machine)
        → Laws rules view
        → EndLaws rules gauge
        → IsReached rules gauge m
        → Turn rules m event environment m2
        → IsReached rules gauge m2 }
    ensures run { (rules : Rules) (gauge : Gauge) (view : View) (m : Machine) (steps : List RunStep) (m2 : Machine)
        → Laws rules view
        → EndLaws rules gauge
        → IsReached rules gauge m
        → Runs rules m steps m2
        → IsReached rules gauge m2 }
    ensures lines { (rules : Rules) (gauge : Gauge) (m : Machine) (lines : List (List ℕ))
        → IsReached rules gauge m
        → IsReached rules gauge (record m { lines = lines }) }
    ensures kept { (rules : Rules) (gauge : Gauge) (view : View) (m : Machine)
        → Kept rules view m
        → IsLive rules gauge m
        → IsReached rules gauge m }
{}

/// A round from a machine that isn't drained reads a line, or leaves less to do inside. So it leaves less in all, also
/// where more lines may still be read than the machine has.
pub fn a_round_leaves_less()
    ensures moves { (rules : Rules) (gauge : Gauge) (view : View) (m : Machine) (steps : List RunStep) (m2 : Machine)
        → Laws rules view
        → EndLaws rules gauge
        → IsReached rules gauge m
        → GoesRound rules m steps m2
        → RoundMoves rules gauge m m2 }
    ensures less { (rules : Rules) (gauge : Gauge) (view : View) (m : Machine) (steps : List RunStep) (m2 : Machine)
        → (lines lines2 : ℕ)
        → Laws rules view
        → EndLaws rules gauge
        → IsReached rules gauge m
        → GoesRound rules m steps m2
        → lines + length m2.lines ≡ lines2 + length m.lines
        → work_with rules gauge lines2 m2 < work_with rules gauge lines m }
{}

/// So n rounds leave at least n less to do, and a drain has no more rounds than there was left to do. One that ended
/// early has fewer whole ones.
pub fn the_drain_ends()
    ensures rounds { (rules : Rules) (gauge : Gauge) (view : View)
        → (m : Machine) (rounds : List (List RunStep)) (m2 : Machine)
        → Laws rules view
        → EndLaws rules gauge
        → IsReached rules gauge m
        → GoesRounds rules m rounds m2
        → length rounds + work_left rules gauge m2 ≤ work_left rules gauge m }
    ensures drain { (rules : Rules) (gauge : Gauge) (view : View)
        → (m : Machine) (rounds : List (List RunStep)) (m2 : Machine)
        → Laws rules view
        → EndLaws rules gauge
        → IsReached rules gauge m
        → Drains rules m rounds m2
        → length rounds ≤ work_left rules gauge m }
    ensures part { (rules : Rules) (gauge : Gauge) (view : View)
        → (m : Machine) (rounds : List (List RunStep)) (steps : List RunStep) (m2 : Machine)
        → Laws rules view
        → EndLaws rules gauge
        → IsReached rules gauge m
        → DrainsInPart rules m rounds steps m2
        → length rounds < work_left rules gauge m }
{}

/// How rounds come to be a drain, or one that ended early, one round after another.
pub fn rounds_make_a_drain()
    ensures none { (rules : Rules) (m : Machine) → GoesRounds rules m [] m }
    ensures more { (rules : Rules) (m : Machine) (rounds : List (List RunStep)) (mid : Machine)
        → (steps : List RunStep) (m2 : Machine)
        → GoesRounds rules m rounds mid
        → GoesRound rules mid steps m2
        → GoesRounds rules m (rounds ++ steps ∷ []) m2 }
    ensures drained { (rules : Rules) (m : Machine) (rounds : List (List RunStep)) (m2 : Machine)
        → GoesRounds rules m rounds m2
        → IsDrained rules m2
        → Drains rules m rounds m2 }
    ensures part { (rules : Rules) (m : Machine) (rounds : List (List RunStep)) (mid : Machine)
        → (steps : List RunStep) (left : List Event) (m2 : Machine)
        → GoesRounds rules m rounds mid
        → (¬ IsDrained rules mid)
        → TakesOf (round rules) steps left
        → Runs rules mid steps m2
        → DrainsInPart rules m rounds steps m2 }
{}

/// However rounds go on, as long as they can, they come to a drained machine; and where nothing befalls their turns,
/// they can.
pub fn a_drain_comes()
    ensures any { (rules : Rules) (gauge : Gauge) (view : View)
        → Laws rules view
        → EndLaws rules gauge
        → ((m : Machine)
        → IsReached rules gauge m
        → (¬ IsDrained rules m)
        → (steps : List RunStep) × ((m2 : Machine) × GoesRound rules m steps m2))
        → (m : Machine)
        → IsReached rules gauge m
        → (rounds : List (List RunStep)) × ((m2 : Machine) × Drains rules m rounds m2) }
    ensures one { (rules : Rules) (gauge : Gauge) (view : View) (m : Machine)
        → Laws rules view
        → EndLaws rules gauge
        → IsReached rules gauge m
        → (rounds : List (List RunStep)) × ((m2 : Machine)
        × (Drains rules m rounds m2 × AllByRecursion AreFair rounds)) }
{}

/// What is left to do is bounded by counts: of lines that may still be read or are held, of messages queued, of active
/// regions, and of entries that aren't sealed.
pub fn counts_bound_the_work()
    ensures { (rules : Rules) (gauge : Gauge) (m : Machine)
        → (unread lines messages active unsealed : ℕ)
        → EndLaws rules gauge
        → IsReached rules gauge m
        → unread + lines_held m ≤ lines
        → messages_in m.queues ≤ messages
        → active_in m.regions ≤ active
        → unsealed_in m ≤ unsealed
        → work_with rules gauge unread m ≤ work_of (line_weight rules gauge) lines messages active unsealed }
{}
