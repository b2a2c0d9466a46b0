/// Why a watcher isn't attached. The watcher comes back.
#[derive(Drop)]
pub enum WatchBack<W> {
    /// A watcher of that id is attached already.
    WatchTaken(Box<W>),
    /// As many as can be are attached.
    WatchFull(Box<W>),
}

/// No watcher of that id is attached.
#[derive(Clone, Copy, Debug, PartialEq, Eq)]
pub struct WatchUnknown;
