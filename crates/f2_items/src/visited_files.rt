// What is kept of each file that was visited.
ghost use Rattle.std.specs.Prelude.{◌≡◌, IfOk};
ghost use Rattle.f2_items.specs.Directories.{closed_from, plain};

use crate::open_directory::OpenDirectory;
use f2_disk::Block;
use f2_node::inode_field;
use std::alloc::AllocError;

/// A file that was visited.
#[derive(Clone, Copy)]
pub struct Visited {
    pub ino: u32,
    /// The links that its inode says.
    pub links: u32,
    pub kind: FileKind,
}

/// What is kept of a file by its type.
#[derive(Clone, Copy)]
pub enum FileKind {
    Plain,
    Directory(Closed),
}

/// What is kept of a directory after it was read.
#[derive(Clone, Copy)]
pub struct Closed {
    /// 2, and one for each name that names a directory.
    pub links_wanted: u64,
    /// What the first item named `..` names.
    pub up: Option<u32>,
    /// Whether the directory may do without `.` and `..`.
    pub may_lack_dots: bool,
}

/// A file with this inode that is no directory.
pub fn plain_file(ino: u32, inode: &Block) -> Visited
    ensures { result ≡ plain ino inode.now }
{
    Visited {
        ino,
        links: inode_field(inode, 5) as u32,
        kind: FileKind::Plain,
    }
}

/// A directory whose items were read. More than 2^64 links are refused as memory that is short.
pub fn closed_directory(directory: &OpenDirectory) -> Result<Visited, AllocError>
    ensures { IfOk result (λ v. v ≡ closed_from directory.now) }
{
    match directory.directories.checked_add(2) {
        Some(links_wanted) => Ok(Visited {
            ino: directory.ino,
            links: directory.inode.links,
            kind: FileKind::Directory(Closed {
                links_wanted,
                up: directory.dots.dot_dot,
                may_lack_dots: directory.inode.may_lack_dots,
            }),
        }),
        None => Err(AllocError),
    }
}
