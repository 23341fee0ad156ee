ghost use Rattle.std.specs.Prelude.{[], ◌∷◌};
ghost use Rattle.wc_examples_language.specs.PathScopes.{timer_scope, paths_scope, block_scope, counters_scope};
ghost use Rattle.wc_model.specs.Definitions.{IsLongest, AreWorstLines};

/// The timer program takes at most ten steps: the jump is passed by.
pub fn timer_path()
    ensures longest { IsLongest timer_scope 10 }
    ensures lines { AreWorstLines timer_scope (3 ∷ 4 ∷ 5 ∷ 6 ∷ 7 ∷ 8 ∷ 9 ∷ []) }
{}

/// If two paths are equally long, the worst path takes the next line.
pub fn worst_path_takes_the_next_line()
    ensures longest { IsLongest paths_scope 5 }
    ensures lines { AreWorstLines paths_scope (2 ∷ 3 ∷ 4 ∷ 7 ∷ 8 ∷ []) }
{}

/// The counting block takes at most 8 steps.
pub fn block_path()
    ensures longest { IsLongest block_scope 8 }
    ensures lines { AreWorstLines block_scope (5 ∷ 6 ∷ 7 ∷ 8 ∷ 9 ∷ 10 ∷ []) }
{}

/// A program with two calls of it takes at most 24, and lists its own lines alone.
pub fn program_path()
    ensures longest { IsLongest counters_scope 24 }
    ensures lines { AreWorstLines counters_scope (14 ∷ 15 ∷ 16 ∷ 17 ∷ 18 ∷ 19 ∷ []) }
{}
