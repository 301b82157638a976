// When declarations are evaluated (own).

/// When declarations are evaluated.
#[derive(Clone, Copy)]
pub enum Stage {
    /// In the rounds, where what is needed may still wait.
    Rounds,
    /// At their end, where nothing waits but what needs itself.
    End,
}
