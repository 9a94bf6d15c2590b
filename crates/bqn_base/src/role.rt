/// What a name or an expression may stand for in its surroundings.
#[derive(Clone, Copy, Debug, PartialEq, Eq)]
pub enum Role {
    Subject,
    Function,
    Mod1,
    Mod2,
}
