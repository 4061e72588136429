//! The limits of a fleet, one by one: the name and the range of each.

ghost use Rattle.std.specs.Prelude.{◌≡◌};
ghost use Rattle.fleet_book.specs.Limits.{least_of, most_of, name_of, limit_named};

/// One of the limits of a fleet.
#[derive(Clone, Copy, Debug, PartialEq, Eq)]
pub enum Limit {
    Lane,
    Outlet,
    Queue,
    Mailbox,
    Life,
    Orders,
    Clock,
    Chapter,
    Chapters,
}

impl Limit {
    /// Its name, as the head of a script writes it.
    pub fn name(self) -> &'static str
        ensures { result.now ≡ name_of self }
    {
        match self {
            Limit::Lane => "lane",
            Limit::Outlet => "outlet",
            Limit::Queue => "queue",
            Limit::Mailbox => "mailbox",
            Limit::Life => "life",
            Limit::Orders => "orders",
            Limit::Clock => "clock",
            Limit::Chapter => "chapter",
            Limit::Chapters => "chapters",
        }
    }

    /// The limit of this name.
    pub fn named(name: &[u8]) -> Option<Limit>
        ensures { result ≡ limit_named name.now }
    {
        if name == b"lane".as_slice() {
            Some(Limit::Lane)
        } else if name == b"outlet".as_slice() {
            Some(Limit::Outlet)
        } else if name == b"queue".as_slice() {
            Some(Limit::Queue)
        } else if name == b"mailbox".as_slice() {
            Some(Limit::Mailbox)
        } else if name == b"life".as_slice() {
            Some(Limit::Life)
        } else if name == b"orders".as_slice() {
            Some(Limit::Orders)
        } else if name == b"clock".as_slice() {
            Some(Limit::Clock)
        } else if name == b"chapter".as_slice() {
            Some(Limit::Chapter)
        } else if name == b"chapters".as_slice() {
            Some(Limit::Chapters)
        } else {
            None
        }
    }

    /// The least value that it may have.
    pub fn least(self) -> u64
        ensures { result ≡ least_of self }
    {
        match self {
            Limit::Mailbox | Limit::Orders => 2,
            _ => 1,
        }
    }

    /// The greatest value that it may have.
    pub fn most(self) -> u64
        ensures { result ≡ most_of self }
    {
        match self {
            Limit::Lane | Limit::Outlet | Limit::Queue | Limit::Mailbox => 65_536,
            Limit::Life => 1 << 40,
            Limit::Orders => 1 << 62,
            Limit::Clock => 1 << 48,
            Limit::Chapter => 16_777_216,
            Limit::Chapters => 4_294_967_295,
        }
    }
}
