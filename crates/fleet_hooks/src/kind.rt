//! How hooks find their answers.

/// How a hook finds its answers, which contracts can name.
#[derive(Clone, Copy, Debug, PartialEq, Eq)]
pub enum HookKind {
    /// One fixed answer, the only one that its law allows: for a tie hook, one in each direction.
    Fixed,
    /// The southern rule. The rank of the neighbour to the south is 0, that of the others 1; the stamp of an arrival is
    /// its tick modulo 1,000; the answer to a farewell is the robot's cell.
    South,
    /// A closure, which answers anything within the law.
    Closure,
}
