//! What holds of the definitions themselves: nothing runs here.

ghost use Rattle.bqn_rows.specs.Laws.{IdenticalIsEquality, MatchIsSameData, OrderIsTotal, LevelsAreOfElements, MadeIsWithinLimits, ProperByParts, ProperIsWithinLimits, PrototypesAreFills, RowsAreLists, FillsAreFollowed, PlacesStay};
ghost use Rattle.bqn_rows.specs.Questions.{QuestionsAreOfTheCall};

/// Values are identical where they are equal, and the same where they are equal without their fills.
#[tactic(auto, using(crate::proofs::Identity::identity_laws))]
pub fn identical_is_equality()
    ensures { IdenticalIsEquality }
{}

/// Match finds two values equal where they are the same data; it is reflexive there, symmetric and transitive.
#[tactic(auto, using(crate::proofs::Matching::matching_laws))]
pub fn match_is_same_data()
    ensures { MatchIsSameData }
{}

/// The order is total; of values with a level it tells apart exactly those that do not match.
#[tactic(auto, using(crate::proofs::Ties::order_laws))]
pub fn order_is_total()
    ensures { OrderIsTotal }
{}

/// A list has level k + 1 where all its elements have level k; numbers and characters have level 0.
#[tactic(auto, using(crate::proofs::Levels::level_laws))]
pub fn levels_are_of_elements()
    ensures { LevelsAreOfElements }
{}

/// What is made keeps the limits, and is proper where its parts are.
#[tactic(auto, using(crate::proofs::Making::making_laws))]
pub fn made_is_within_limits()
    ensures { MadeIsWithinLimits }
{}

/// An array is proper where its parts are, and what it carries may be carried.
#[tactic(auto, using(crate::proofs::Proper::proper_laws))]
pub fn proper_by_parts()
    ensures { ProperByParts }
{}

/// Proper values keep the limits.
#[tactic(auto, using(crate::proofs::Proper::proper_laws))]
pub fn proper_is_within_limits()
    ensures { ProperIsWithinLimits }
{}

/// Rows of values are lists, and fills are options.
#[tactic(auto, using(crate::proofs::Rows::row_laws))]
pub fn rows_are_lists()
    ensures { RowsAreLists }
{}

/// The fills of fills are followed deep enough in the rows of arithmetic.
#[tactic(auto, using(crate::proofs::Following::fill_laws))]
pub fn fills_are_followed()
    ensures { FillsAreFollowed }
{}

/// A prototype is its own prototype and as large as the value; it and the fill of a proper value may be carried.
#[tactic(auto, using(crate::proofs::Prototypes::prototype_laws))]
pub fn prototypes_are_fills()
    ensures { PrototypesAreFills }
{}

/// What a call asks after given replies is what it asks when it is run on them.
#[tactic(auto, using(crate::proofs::Questioning::question_laws))]
pub fn questions_are_of_the_call()
    ensures { QuestionsAreOfTheCall }
{}

/// A fault that has a place keeps it; one that has none gets the place of the operation, if that has one.
#[tactic(auto, using(crate::proofs::Stamping::place_laws))]
pub fn places_stay()
    ensures { PlacesStay }
{}
