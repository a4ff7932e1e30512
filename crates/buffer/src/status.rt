// A node's status, the first byte of its page.
ghost use Rattle.std.specs.Prelude.{◌≡◌};
ghost use Rattle.state.specs.Node.{status_number};
ghost use Rattle.buffer.specs.Status.{status_is};

#[derive(Clone, Copy, Debug, PartialEq, Eq)]
pub enum Status {
    Up,
    Down,
    Replaying,
}

impl From<Status> for u8 {
    ghost from_gives = { λ status n. n ≡ status_number (status_is status) };

    fn from(status: Status) -> u8 {
        match status {
            Status::Up => 0,
            Status::Down => 1,
            Status::Replaying => 2,
        }
    }
}
