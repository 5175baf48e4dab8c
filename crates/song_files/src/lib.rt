//! Songs' files and tags: sources of bytes, folders, in memory and on disk; the tags that a song may have.
#![tactic(auto)]

mod faulty;
mod faulty_folder;
mod file_folder;
mod file_source;
mod folder;
mod known_files;
mod memory_folder;
mod odd_names;
mod read;
mod source;
mod tag;
mod tag_set;
mod tags;
mod text;

pub use faulty::{FaultySource, ReadTrouble};
pub use faulty_folder::FaultyFolder;
pub use file_folder::FileFolder;
pub use file_source::FileSource;
pub use folder::{FileStamp, Folder, FolderEntry, FolderFault};
pub use memory_folder::MemFolder;
pub use odd_names::ODD;
pub use read::read_exact;
pub use source::{MemSource, Source, SourceFault};
pub use tag::{TAG_COUNT, Tag};
pub use tag_set::{TagSet, tag_sets};
pub use tags::{MAX_TAGS, Tags};
pub use text::{MAX_TAG_BYTES, has_control, is_tag_text, tag_text};
