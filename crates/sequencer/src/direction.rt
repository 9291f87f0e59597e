/// Which calls are tested.
#[derive(Clone, Copy, Debug)]
pub enum Direction {
    /// Those that take a resource down.
    Down,
    /// Those that bring it up.
    Up,
}
