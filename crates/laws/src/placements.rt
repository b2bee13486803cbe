//! Laws of the list of all placements.
ghost use Rattle.std.specs.Prelude.{◌≡◌, [], ◌∷◌, ℕ, List};
ghost use Rattle.model.specs.Application.{Application, Limits};
ghost use Rattle.model.specs.Placements.{AreAll, AreDistinct, begun, ended};
ghost use Rattle.laws.specs.PlacementExamples.{AreEachLess, HasPlacements, HasPlacementsOf, one_step, rising, two_steps};

/// If no run continues past a step, the placements that end before that step are all placements.
pub fn steps_have_all_placements()
    ensures { (app : Application) (limits : Limits) (handlers : List ℕ) (most n : ℕ) → AreDistinct handlers
        → begun app limits handlers most n ≡ [] → AreAll app limits handlers most (ended app limits handlers most n) }
{}

/// An application of two steps has 1, 3, 6 and 10 placements of at most 0, 1, 2 and 3 injections of one handler.
pub fn placements_of_two_steps()
    ensures none { HasPlacements two_steps (0 ∷ []) 0 1 }
    ensures one { HasPlacements two_steps (0 ∷ []) 1 3 }
    ensures two { HasPlacements two_steps (0 ∷ []) 2 6 }
    ensures three { HasPlacements two_steps (0 ∷ []) 3 10 }
{}

/// The order of two handlers before one step matters, and each handler may come twice.
pub fn order_counts_within_a_step()
    ensures { HasPlacementsOf one_step (0 ∷ 1 ∷ []) 2
        ([] ∷ (0 ∷ []) ∷ (1 ∷ []) ∷ (0 ∷ 0 ∷ []) ∷ (0 ∷ 1 ∷ []) ∷ (1 ∷ 0 ∷ []) ∷ (1 ∷ 1 ∷ []) ∷ []) }
{}

/// Fewer injections come first, then an earlier step, then the handler that is earlier in the file.
pub fn placements_are_ordered()
    ensures { AreEachLess rising }
{}
