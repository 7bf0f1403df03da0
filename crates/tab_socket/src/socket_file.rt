//! A socket file that is listened on: how it gets its name, and how it goes.

use crate::folder_lock::FolderLock;
use crate::private_folder::{PrivateFolder, has_room, make_room};
use std::fs;
use std::fs::{Metadata, Permissions, TryLockError};
use std::io::{Error, ErrorKind};
use std::os::unix::fs::{FileTypeExt, MetadataExt, PermissionsExt};
use std::os::unix::net::{UnixListener, UnixStream};

// How many bytes the name of a socket has at most.
const LONGEST: usize = 107;

/// Why a socket file can't be listened on. Whatever had its name has it still.
#[derive(Clone, Copy, Debug, thiserror::Error)]
pub enum SocketFault {
    /// Its name is too long.
    #[error("the name is too long for a socket: 107 bytes at most, 97 of them up to its last slash")]
    TooLong,
    /// What has this name is no socket.
    #[error("it is there, and is no socket")]
    NoSocket,
    /// Another server listens on it.
    #[error("another server has it")]
    Taken,
    /// Another program has had its folder locked for 5 seconds.
    #[error("another program has its folder locked")]
    Locked,
    /// The system refuses it, for this reason.
    #[error("it can't be listened on: {0}")]
    Refused(Error),
}

impl From<Error> for SocketFault {
    fn from(error: Error) -> SocketFault {
        SocketFault::Refused(error)
    }
}

impl From<TryLockError> for SocketFault {
    fn from(error: TryLockError) -> SocketFault {
        match error {
            TryLockError::WouldBlock => SocketFault::Locked,
            TryLockError::Error(error) => SocketFault::Refused(error),
        }
    }
}

/// A socket file that is listened on.
///
/// Nobody can connect before the file has its mode: the socket is made in a new folder that only its maker can enter, gets its mode there,
/// and only then the name under which others find it. So who connects has passed the mode, and the owner and group of the file. This holds as
/// long as only who may be trusted can write to the file's folder: who can may take the name away, and give it to a socket of his own.
///
/// Of a dead server the file is left over; nobody answers there. A new server's takes its place, in one step. A server has the folder locked from
/// before it looks whether somebody answers until it has the name, and while it gives the name up. So of any number of servers that begin at once
/// over one name one gets it, and the others are told that it's taken.
#[derive(Drop)]
pub struct SocketFile<'a> {
    rt: &'a HostRuntime,
    name: &'a str,
    listener: UnixListener,
    made: Metadata,
}

impl<'a> SocketFile<'a> {
    /// Makes a socket file of this name and mode, and listens on it. It has the group that the rights of its folder give. The folder has to be
    /// one that can be read and locked.
    pub fn bind(
        rt: &'a HostRuntime,
        name: &'a str,
        mode: u32,
    ) -> Result<SocketFile<'a>, SocketFault> {
        if name.len() > LONGEST || !has_room(name, LONGEST) {
            return Err(SocketFault::TooLong);
        }
        let _lock = FolderLock::take(rt, name)?;
        let room = make_room(rt, name)?;
        let outcome = bind_in(rt, name, mode, &room);
        room.clear(rt);
        outcome
    }

    /// Takes the file away, unless another one has its name by now. Where its folder can't be locked within 5 seconds it stays, as a dead
    /// server's does.
    pub fn remove(&self) {
        if let Ok(_lock) = FolderLock::take(self.rt, self.name) {
            self.remove_own();
        }
    }

    // `remove` in the folder that is locked.
    fn remove_own(&self) {
        if let Ok(found) = fs::symlink_metadata(self.rt, self.name)
            && is_same(&found, &self.made)
        {
            let _ = fs::remove_file(self.rt, self.name);
        }
    }

    // What listens.
    pub(crate) fn listener(&self) -> &UnixListener {
        &self.listener
    }
}

// Whether both are of one file.
fn is_same(one: &Metadata, other: &Metadata) -> bool {
    one.dev() == other.dev() && one.ino() == other.ino()
}

// Makes the socket in the room, and gives it its mode, then its name.
fn bind_in<'a>(
    rt: &'a HostRuntime,
    name: &'a str,
    mode: u32,
    room: &PrivateFolder,
) -> Result<SocketFile<'a>, SocketFault> {
    let made = room.made.as_str();
    let listener = UnixListener::bind(rt, made)?;
    fs::set_permissions(rt, made, Permissions::from_mode(mode))?;
    let made = fs::symlink_metadata(rt, made)?;
    take_name(rt, name, room)?;
    Ok(SocketFile {
        rt,
        name,
        listener,
        made,
    })
}

// Gives what was made in the room its name. The folder is locked: no other server's file comes to have the name meanwhile.
fn take_name(rt: &HostRuntime, name: &str, room: &PrivateFolder) -> Result<(), SocketFault> {
    let made = room.made.as_str();
    if is_left_over(rt, name)? {
        fs::rename(rt, made, name)?;
    } else {
        fs::hard_link(rt, made, name)?;
    }
    Ok(())
}

// Whether a dead server's file has this name, which nothing has otherwise.
fn is_left_over(rt: &HostRuntime, name: &str) -> Result<bool, SocketFault> {
    match fs::symlink_metadata(rt, name) {
        Ok(found) if !found.file_type().is_socket() => return Err(SocketFault::NoSocket),
        Ok(_) => {}
        Err(error) if error.kind() == ErrorKind::NotFound => return Ok(false),
        Err(error) => return Err(SocketFault::Refused(error)),
    }
    if answers(rt, name)? {
        return Err(SocketFault::Taken);
    }
    Ok(true)
}

// Whether somebody listens on the socket file of this name.
fn answers(rt: &HostRuntime, name: &str) -> Result<bool, SocketFault> {
    match UnixStream::connect(rt, name) {
        Ok(_) => Ok(true),
        Err(error) => match error.kind() {
            ErrorKind::ConnectionRefused | ErrorKind::NotFound => Ok(false),
            _ => Err(SocketFault::Refused(error)),
        },
    }
}
