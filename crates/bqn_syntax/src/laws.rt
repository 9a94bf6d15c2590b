//! What holds of the definitions themselves: nothing runs here.

ghost use Rattle.bqn_syntax.specs.text.Fitting.{TokensOfSourcesFit};
ghost use Rattle.bqn_syntax.specs.text.Laws.{CutIsUnique};

/// A text has at most one cut: the pieces that the table gives, each as long as possible.
#[tactic(auto, using(crate::proofs::Cutting::cut_laws))]
pub fn cut_is_unique()
    ensures { CutIsUnique }
{}

/// The tokens of a source are at most 2^20: their names begin with a letter and are not long, texts are not
/// long, and primitives have codes.
#[tactic(auto, using(crate::proofs::FittingTokens::token_laws))]
pub fn tokens_of_sources_fit()
    ensures { TokensOfSourcesFit }
{}
