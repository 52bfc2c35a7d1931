// Files made and opened for an image. What a file holds is trusted; no clause can say it.
use std::fs::{self, File, OpenOptions};
use std::io;
use std::os::fd::{AsRawFd, IntoRawFd};
use std::os::unix::fs::FileExt;
use std::rt::Files;

/// How many zeros are written at a time.
const PIECE: usize = 65_536;

/// A file that holds nothing and takes nothing.
const NULL: &str = "/dev/null";

/// Makes a new file of `size` zeros, which is stable under its name. A name that exists is an error; after any other
/// error there is no file of that name.
pub(crate) fn new_file<R: Files<File = File>>(rt: &R, name: &str, size: u64) -> io::Result<File> {
    take_closed_streams(rt)?;
    let file = File::create_new(rt, name)?;
    match make_stable(rt, &file, name, size) {
        Ok(()) => Ok(file),
        Err(error) => {
            // If it stayed, the next try would fail.
            let _ = fs::remove_file(rt, name);
            Err(error)
        }
    }
}

/// Opens a file, takes its lock, and makes what it holds stable. With it comes its size. A file whose lock another
/// program holds is an error, before anything of it is read or written. The lock goes as the file is closed.
pub(crate) fn open_file<R: Files<File = File>>(rt: &R, name: &str) -> io::Result<(File, u64)> {
    take_closed_streams(rt)?;
    let file = OpenOptions::new().read(true).write(true).open(rt, name)?;
    file.try_lock()?;
    file.sync_all()?;
    let size = file.metadata()?.len();
    Ok((file, size))
}

/// Reads all these bytes. An error ends it at once, and a signal is one: no call that failed is made again.
pub(crate) fn read_all(file: &File, into: &mut [u8], at: u64) -> io::Result<()> {
    let mut done = 0;
    while done < into.len() {
        let got = file.read_at(&mut into[done..], at.saturating_add(done as u64))?;
        if got == 0 {
            return Err(io::Error::from(io::ErrorKind::UnexpectedEof));
        }
        done += got;
    }
    Ok(())
}

/// Writes all these bytes, as `read_all` reads them.
pub(crate) fn write_all(file: &File, bytes: &[u8], at: u64) -> io::Result<()> {
    let mut done = 0;
    while done < bytes.len() {
        let put = file.write_at(&bytes[done..], at.saturating_add(done as u64))?;
        if put == 0 {
            return Err(io::Error::from(io::ErrorKind::WriteZero));
        }
        done += put;
    }
    Ok(())
}

/// Opens the null device where standard input, output or error is closed. The next file would else become that stream,
/// and replies would be written into the image. A read of such an input fails, and a write of such an output.
fn take_closed_streams<R: Files<File = File>>(rt: &R) -> io::Result<()> {
    let input = OpenOptions::new().write(true).open(rt, NULL)?;
    if input.as_raw_fd() == 0 {
        let _ = input.into_raw_fd();
    } else {
        drop(input);
    }
    for _ in 0..2 {
        let output = File::open(rt, NULL)?;
        if output.as_raw_fd() > 2 {
            return Ok(());
        }
        let _ = output.into_raw_fd();
    }
    Ok(())
}

/// Takes the lock of a new file, fills it with zeros, and makes them and its name stable.
fn make_stable<R: Files<File = File>>(
    rt: &R,
    file: &File,
    name: &str,
    size: u64,
) -> io::Result<()> {
    file.try_lock()?;
    fill(file, size)?;
    file.sync_all()?;
    File::open(rt, folder_of(name))?.sync_all()
}

/// Writes `size` zeros.
fn fill(file: &File, size: u64) -> io::Result<()> {
    let zeros = [0; PIECE];
    let mut at = 0;
    while at < size {
        let len = (size - at).min(PIECE as u64);
        write_all(file, &zeros[..len as usize], at)?;
        at += len;
    }
    Ok(())
}

/// The folder that a name lies in.
fn folder_of(name: &str) -> &str {
    match name.rfind('/') {
        None => ".",
        Some(0) => "/",
        Some(at) => &name[..at],
    }
}
