//! The outside world: where bytes come from and where they go, as traits, and fakes of them in memory.
//!
//! What is outside may fail at any call. Each trait has a count of faults that never falls, and a call
//! answers a fault only where that count rose: it is greater than before, or stands at 2^64 - 1. So a
//! body that only claims a fault is refused. A source may tell the bytes that it has left, a sink the
//! bytes that it took, a folder its files, and contracts above speak of these where they are told. A folder has two counts,
//! of faults in loading and in saving.
//!
//! `MemSource`, `MemSink` and `MemFolder` fail at the calls that a test names. `SureSource`, `SureSink` and `SureFolder` never
//! fail.
#![tactic(auto)]

mod failed;
mod file_list;
mod folder;
pub mod laws;
mod literal;
mod literal_maker;
mod matcher;
mod mem_folder;
mod mem_sink;
mod mem_source;
mod pattern_maker;
mod plan;
mod remaining;
mod sink;
mod source;
mod spans;
mod store;
mod sure_folder;
mod sure_maker;
mod sure_sink;
mod sure_source;

pub use failed::Failed;
pub use folder::{Folder, FolderRefusal};
pub use literal::{LiteralMatcher, find_literals};
pub use literal_maker::LiteralMaker;
pub use matcher::Matcher;
pub use mem_folder::{MemFolder, SINK_ROOM};
pub use mem_sink::MemSink;
pub use mem_source::MemSource;
pub use pattern_maker::{MakeRefusal, PatternMaker};
pub use sink::Sink;
pub use source::Source;
pub use spans::Spans;
pub use sure_folder::SureFolder;
pub use sure_maker::SureMaker;
pub use sure_sink::SureSink;
pub use sure_source::SureSource;
