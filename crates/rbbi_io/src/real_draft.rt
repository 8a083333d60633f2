//! The files of the system, written by way of a draft: an edge over std's files.
ghost use Rattle.std.specs.Prelude.{◌≡◌, OnOk, IfOk, IfErr, IfSome, IsTrue};
ghost use Rattle.std.specs.Fs.{file_type, IsSymlink};
ghost use Rattle.std.specs.Path.{path_bytes, path_buf_bytes};
ghost use Rattle.std.specs.Io.KnownBytes.{Appends};
ghost use Rattle.rbbi_io.specs.inner.Drafts.{IsOfProcess, ForbidsDraft, ForbidsRename, IsReason};

use crate::WriteErr;
use crate::draft::{Target, refused_write, replace};
use std::alloc::Allocator;
use std::fs::{File, Files, Metadata, OpenFile, OpenOptions};
use std::io::{ErrorKind, Write};
use std::os::unix::fs::{MetadataExt, lchown};
use std::path::{Path, PathBuf};
use std::{fs, io};

/// The most links that are followed from one to the next.
const MOST_LINKS: u64 = 40;

/// What a draft is to replace: its path, which is no link, and the system's metadata of the file
/// that is there, if one is.
#[derive(Drop)]
struct Replaced<A: Allocator> {
    path: PathBuf<A>,
    old: Option<Metadata>,
}

/// A new file of the system, in the folder of the file that it is to replace.
#[derive(Drop)]
struct Draft<R: Files + Alloc> {
    file: R::File,
    path: PathBuf<R::A>,
    replaced: Replaced<R::A>,
}

/// Why a name is written in place, as the system said it.
#[derive(Drop)]
enum Fixed<A: Allocator> {
    /// What has the name is neither a regular file nor a link.
    Special(Metadata),
    /// The link with this path leads to what a process has open, as `/dev/stdout` does.
    Open(PathBuf<A>),
    /// The folder takes no draft.
    NoDraft(io::Error),
    /// The name can't be given to the draft.
    NotRenamed(io::Error),
}

/// A name of the system, with its draft once that is made. It does not tell what the two hold.
#[derive(Drop)]
struct RealTarget<'a, R: Files + Alloc> {
    rt: &'a R,
    name: &'a str,
    draft: Option<Draft<R>>,
    /// The device said that it has all that was written into the draft.
    is_synced: bool,
    /// Why the name is written in place, once that is known.
    fixed: Option<Fixed<R::A>>,
}

impl<R: Files + Alloc> RealTarget<'_, R> {
    /// Removes the draft, if there is one.
    fn remove_draft(&self) {
        if let Some(draft) = &self.draft {
            let _ = fs::remove_file(self.rt, draft.path.as_path());
        }
    }
}

impl<'a, R: Files + Alloc> Target for RealTarget<'a, R> {
    ghost use Rattle.std.specs.Prelude.{◌≡◌, None, IsSomeAnd, true};
    ghost use Rattle.rbbi_io.specs.inner.Drafts.{IsReason};

    ghost drafted = { λ _. None };

    ghost held = { λ _. None };

    ghost is_synced = { λ target. target.is_synced ≡ true };

    ghost is_fixed = { λ target. IsSomeAnd target.fixed IsReason };

    fn make_draft(&mut self) -> io::Result<bool> {
        match draft_of(self.rt, self.name)? {
            Ok(draft) => self.draft = Some(draft),
            Err(fixed) => {
                self.fixed = Some(fixed);
                return Ok(false);
            }
        }
        Ok(true)
    }

    fn write(&mut self, bytes: &[u8]) -> io::Result<()> {
        self.is_synced = false;
        match &mut self.draft {
            Some(draft) => {
                take_over(self.rt, draft)?;
                draft.file.write_all(bytes)
            }
            None => Err(no_draft()),
        }
    }

    fn sync(&mut self) -> io::Result<()> {
        let outcome = match &self.draft {
            Some(draft) => draft.file.sync_all(),
            None => Err(no_draft()),
        };
        self.is_synced = outcome.is_ok();
        outcome
    }

    fn rename(&mut self) -> io::Result<bool> {
        let Some(draft) = &self.draft else {
            return Err(no_draft());
        };
        match fs::rename(self.rt, draft.path.as_path(), draft.replaced.path.as_path()) {
            Ok(()) => Ok(true),
            Err(fault) if forbids_rename(&fault) => {
                self.fixed = Some(Fixed::NotRenamed(fault));
                Ok(false)
            }
            Err(fault) => Err(fault),
        }
    }

    fn remove(&mut self) {
        self.remove_draft();
    }

    fn overwrite(&mut self, bytes: &[u8]) -> Result<(), WriteErr> {
        self.remove_draft();
        write_in_place(self.rt, self.name, bytes)
    }
}

/// The fault of a draft that wasn't made.
fn no_draft() -> io::Error {
    io::Error::from(ErrorKind::NotFound)
}

/// Gives a draft the owner and the group of the old file, or the group alone, as far as the system
/// allows that, and then its permissions.
fn take_over<R: Files + Alloc>(rt: &R, draft: &Draft<R>) -> io::Result<()> {
    let Some(old) = &draft.replaced.old else {
        return Ok(());
    };
    let path = draft.path.as_path();
    if lchown(rt, path, Some(old.uid()), Some(old.gid())).is_err() {
        let _ = lchown(rt, path, None, Some(old.gid()));
    }
    draft.file.set_permissions(old.permissions())
}

/// Whether the system makes no draft in a folder, where it says this.
fn forbids_draft(fault: &io::Error) -> bool
    ensures { IsTrue result → ForbidsDraft fault.now }
{
    let kind = fault.kind();
    kind == ErrorKind::PermissionDenied || kind == ErrorKind::ReadOnlyFilesystem
}

/// Whether the system gives a name to no other file, where it says this.
fn forbids_rename(fault: &io::Error) -> bool
    ensures { IsTrue result → ForbidsRename fault.now }
{
    let kind = fault.kind();
    kind == ErrorKind::PermissionDenied
        || kind == ErrorKind::ResourceBusy
        || kind == ErrorKind::CrossesDevices
}

/// Whether a link of this path leads to what a process has open.
fn is_of_process(path: Path<'_>) -> bool
    ensures { IsTrue result → IsOfProcess (path_bytes path.entry) }
{
    path.starts_with("/proc") || path.starts_with("/dev/fd")
}

/// What the system says of a path itself, or nothing where nothing has it.
fn metadata_of<R: Files>(rt: &R, path: Path<'_>) -> io::Result<Option<Metadata>> {
    match fs::symlink_metadata(rt, path) {
        Ok(found) => Ok(Some(found)),
        Err(fault) if fault.kind() == ErrorKind::NotFound => Ok(None),
        Err(fault) => Err(fault),
    }
}

/// Whether this is a link that is followed.
fn is_followed(path: Path<'_>, found: &Option<Metadata>) -> bool
    ensures { ¬ IsTrue result → IfSome found.now (λ found. IsSymlink (file_type found)
        → IsOfProcess (path_bytes path.entry)) }
{
    match found {
        Some(found) => found.is_symlink() && !is_of_process(path),
        None => false,
    }
}

/// The end of the links from a name, with what the system says of that path. Only a link to what a
/// process has open is not followed.
fn follow<R: Files + Alloc>(rt: &R, name: &str) -> io::Result<(PathBuf<R::A>, Option<Metadata>)>
    ensures { IfOk result (λ end. IfSome end.1 (λ found. IsSymlink (file_type found)
        → IsOfProcess (path_buf_bytes end.0))) }
{
    let mut path = PathBuf::from_str(rt.alloc(), name)?;
    for _ in 0..MOST_LINKS {
        let found = metadata_of(rt, path.as_path())?;
        if !is_followed(path.as_path(), &found) {
            return Ok((path, found));
        }
        let next = fs::read_link(rt, path.as_path())?;
        path = path
            .as_path()
            .with_file_name(rt.alloc(), next.as_path().as_str())?;
    }
    Err(io::Error::from(ErrorKind::FilesystemLoop))
}

/// What a draft is to replace that takes the path of what is there, or why that is written in place.
/// Refused where a regular file may not be written.
fn judged<R: Files + Alloc>(
    rt: &R,
    path: PathBuf<R::A>,
    old: Metadata,
) -> io::Result<Result<Replaced<R::A>, Fixed<R::A>>>
    requires { IsSymlink (file_type old) → IsOfProcess (path_buf_bytes path) }
    ensures { IfOk result (λ told. IfErr told IsReason) }
{
    if old.is_symlink() {
        return Ok(Err(Fixed::Open(path)));
    }
    if !old.is_file() {
        return Ok(Err(Fixed::Special(old)));
    }
    OpenOptions::new().write(true).open(rt, path.as_path())?;
    Ok(Ok(Replaced {
        path,
        old: Some(old),
    }))
}

/// What a draft of this name is to replace: the regular file to which it leads, or if nothing is
/// there, that path. Otherwise why it is written in place. Refused also where the system doesn't say
/// what is there.
fn replaced_by<R: Files + Alloc>(
    rt: &R,
    name: &str,
) -> io::Result<Result<Replaced<R::A>, Fixed<R::A>>>
    ensures { IfOk result (λ told. IfErr told IsReason) }
{
    let (path, found) = follow(rt, name)?;
    match found {
        Some(old) => judged(rt, path, old),
        None => Ok(Ok(Replaced { path, old: None })),
    }
}

/// A new, empty file in the folder of the one that it is to replace. Its name is `.rbbi-` with the
/// first number that no file there has, and it is made only if it isn't there, so no two runs have
/// one draft. Where the folder forbids new files, why the old one is written in place.
fn draft_for<R: Files + Alloc>(
    rt: &R,
    replaced: Replaced<R::A>,
) -> io::Result<Result<Draft<R>, Fixed<R::A>>>
    ensures { IfOk result (λ told. IfErr told IsReason) }
{
    for number in 0..u64::MAX {
        let name = format!(in rt.alloc(); ".rbbi-{number}")?;
        let path = replaced
            .path
            .as_path()
            .with_file_name(rt.alloc(), name.as_str())?;
        match File::create_new(rt, path.as_path()) {
            Ok(file) => {
                return Ok(Ok(Draft {
                    file,
                    path,
                    replaced,
                }));
            }
            Err(fault) if fault.kind() == ErrorKind::AlreadyExists => {}
            Err(fault) if forbids_draft(&fault) => return Ok(Err(Fixed::NoDraft(fault))),
            Err(fault) => return Err(fault),
        }
    }
    Err(io::Error::from(ErrorKind::AlreadyExists))
}

/// An empty draft of what this name leads to, or why that is written in place.
fn draft_of<R: Files + Alloc>(rt: &R, name: &str) -> io::Result<Result<Draft<R>, Fixed<R::A>>>
    ensures { IfOk result (λ told. IfErr told IsReason) }
{
    match replaced_by(rt, name)? {
        Ok(replaced) => draft_for(rt, replaced),
        Err(fixed) => Ok(Err(fixed)),
    }
}

/// Writes these bytes into a file that is open. Whatever goes wrong is a fault, since the file may
/// then hold anything.
pub(crate) fn write_to<W: Write>(file: &mut W, bytes: &[u8]) -> Result<(), WriteErr>
    ensures { OnOk result (Appends (W.contents file.old) (W.contents file.new) bytes.now) }
{
    match file.write_all(bytes) {
        Ok(()) => Ok(()),
        Err(_) => Err(WriteErr::Failed),
    }
}

/// Opens what has this name and empties it, or makes a file where nothing has it. What is there is
/// opened as such: the system refuses to create it for another user's file in a sticky folder.
fn emptied<R: Files>(rt: &R, name: &str) -> io::Result<R::File> {
    match OpenOptions::new().write(true).truncate(true).open(rt, name) {
        Err(fault) if fault.kind() == ErrorKind::NotFound => File::create(rt, name),
        opened => opened,
    }
}

/// Hands what a file holds to the device. A pipe and a terminal have none, and the system says that
/// the call isn't for them.
fn sync_to_device<F: OpenFile>(file: &F) -> Result<(), WriteErr> {
    match file.sync_all() {
        Err(fault) if fault.kind() != ErrorKind::InvalidInput => Err(WriteErr::Failed),
        _ => Ok(()),
    }
}

/// Makes what has this name hold these bytes, without a draft. What the system says when the file
/// is closed is not known here; the device has the bytes by then.
fn write_in_place<R: Files>(rt: &R, name: &str, bytes: &[u8]) -> Result<(), WriteErr> {
    match emptied(rt, name) {
        Ok(mut file) => {
            write_to(&mut file, bytes)?;
            sync_to_device(&file)
        }
        Err(fault) => Err(refused_write(&fault)),
    }
}

/// Makes the file of this name hold these bytes. A regular file is replaced by a draft once that is
/// whole, so that it is never half written; the draft takes over its permissions, and its owner and
/// group where the system allows that.
pub(crate) fn write_file<R: Files + Alloc>(
    rt: &R,
    name: &str,
    bytes: &[u8],
) -> Result<(), WriteErr> {
    let mut target = RealTarget {
        rt,
        name,
        draft: None,
        is_synced: false,
        fixed: None,
    };
    replace(&mut target, bytes)
}
