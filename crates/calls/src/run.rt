// Items that a call has put, and the state behind them.

// How many there are, and the state behind them.
#[derive(Clone, Copy)]
pub struct Run<W> {
    pub count: usize,
    pub next: W,
}
