//! Whether another user could lead a restore of root elsewhere.

ghost use Rattle.std.specs.Prelude.{◌≡◌, ◌≢◌, ◌↔◌, ◌⊎◌, IsTrue, bit_and};

use crate::folders::parent_of;
use crate::identities::{Links, look};
use crate::interruptions::retry_interrupted;
use crate::system::if_there;
use std::alloc::AllocGlobal;
use std::fs::{Files, Metadata};
use std::os::unix::fs::MetadataExt;
use std::{fs, io};

/// The number of root.
const ROOT: u32 = 0;

/// So many links are followed on the way to a folder at most.
const MOST_LINKS: u64 = 40;

/// The way to a folder, as far as it was looked at.
#[derive(Drop)]
enum Way {
    /// Nobody but root can change where it leads.
    Safe,
    /// Another user can.
    Unsafe,
    /// It meets a link, and goes on by this path.
    Onward(String),
}

/// Whether only root can change what root has in a folder: the folder is root's, and neither its group nor others may write there, or
/// its sticky bit keeps each user to their own entries.
fn is_shut(owner: u32, mode: u32) -> bool
    ensures { IsTrue result ↔ ((owner ≡ 0) × ((bit_and mode 0o22 ≡ 0) ⊎ (bit_and mode 0o1000 ≢ 0))) }
{
    owner == ROOT && (mode & 0o22 == 0 || mode & 0o1000 != 0)
}

/// Whether root runs this program, or who does can't be known, since `/proc` isn't there.
fn may_be_root<R: Files>(rt: &R) -> bool {
    match look(rt, "/proc/self", Links::Followed) {
        Ok(found) => found.uid() == ROOT,
        Err(_) => true,
    }
}

/// A path from the root.
fn whole_path<R: Files + AllocGlobal>(rt: &R, path: &str) -> io::Result<String> {
    if path.starts_with('/') {
        return Ok(String::from_str(rt.alloc(), path)?);
    }
    let here = retry_interrupted(|| fs::canonicalize(rt, "."))?;
    Ok(format!(in rt.alloc(); "{}/{path}", here.as_str())?)
}

/// The path by which a way goes on from a link, behind which `rest` stands.
fn behind_link<R: Files + AllocGlobal>(rt: &R, link: &str, rest: &str) -> io::Result<String> {
    let to = retry_interrupted(|| fs::read_link(rt, link))?;
    if to.as_str().starts_with('/') {
        return Ok(format!(in rt.alloc(); "{}{rest}", to.as_str())?);
    }
    Ok(format!(in rt.alloc(); "{}/{}{rest}", parent_of(link), to.as_str())?)
}

/// Whether only root can change what is at the place where this was found, and where a link there leads.
fn is_shut_place(found: &Metadata) -> bool {
    if found.is_symlink() {
        return found.uid() == ROOT;
    }
    is_shut(found.uid(), found.mode())
}

/// The way that a path from the root leads, as far as something is there, up to its first link.
fn way_of<R: Files + AllocGlobal>(rt: &R, path: &str) -> io::Result<Way> {
    for end in 1..=path.len() {
        if let Some((place, rest)) = path.split_at_checked(end)
            && (rest.is_empty() || rest.starts_with('/'))
        {
            let Some(found) = if_there(look(rt, place, Links::NotFollowed))? else {
                return Ok(Way::Safe);
            };
            if !is_shut_place(&found) {
                return Ok(Way::Unsafe);
            }
            if found.is_symlink() {
                return Ok(Way::Onward(behind_link(rt, place, rest)?));
            }
        }
    }
    Ok(Way::Safe)
}

/// Whether root may restore into the folder of this path: only root can change where the path leads, and what is in the folder.
///
/// A restore goes by paths. Who may write to the target, or to a folder above it, could put a link in the place of a directory
/// that was restored, and have root write elsewhere. So each folder on the way, as far as it is there, has to be root's, and not
/// writable by its group or by others. A folder with the sticky bit, such as `/tmp`, may be writable by all: nobody can replace
/// there what is root's. Links on the way are followed, and have to be root's.
///
/// Any folder is safe for another user than root: who restores has no more rights than the files that are made. Who runs the
/// program is known by the owner of `/proc/self`. If that can't be read, everybody is taken for root.
///
/// What a path leads to may change behind this: a folder of root's in a sticky one doesn't. A folder that isn't there can be made
/// there by anybody, so a restore asks again once it has made it.
pub fn is_safe_target<R: Files + AllocGlobal>(rt: &R, folder: &str) -> io::Result<bool> {
    if !may_be_root(rt) {
        return Ok(true);
    }
    if !is_shut_place(&look(rt, "/", Links::NotFollowed)?) {
        return Ok(false);
    }
    let mut path = whole_path(rt, folder)?;
    for _ in 0..MOST_LINKS {
        match way_of(rt, path.as_str())? {
            Way::Safe => return Ok(true),
            Way::Unsafe => return Ok(false),
            Way::Onward(onward) => path = onward,
        }
    }
    Ok(false)
}
