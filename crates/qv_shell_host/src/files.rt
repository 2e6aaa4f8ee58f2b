//! The files that the words name.
ghost use Rattle.std.specs.Prelude.{◌≡◌, ◌↔◌, None, Some, Ok, IsErr, IsTrue};
ghost use Rattle.qv_shell_host.specs.Files.{IsHeld};

use crate::identity::Identity;
use std::fs::{self, OpenFile, OpenOptions};
use std::io::{self, ErrorKind, IsTerminal, Read, Stdin, Stdout};
use std::os::fd::AsFd;
use std::rt::Files;

// The word that stands for standard input, or for a certificate that solve doesn't keep.
const DASH: &str = "-";

// A path of what standard input reads, and of what standard output writes to: each leads to what is
// open there, whatever became of its name.
const INPUT: &str = "/dev/stdin";

const OUTPUT: &str = "/dev/stdout";

/// A standard stream, where it is open.
pub fn if_open<F: AsFd + Drop>(stream: F) -> io::Result<F> {
    stream.as_fd().try_clone_to_owned()?;
    Ok(stream)
}

/// Lends what was opened.
pub fn lent<T>(opened: &mut io::Result<T>) -> io::Result<&mut T> {
    match opened {
        Ok(it) => Ok(it),
        Err(why) => Err(*why),
    }
}

/// What a script, or a certificate that is checked, is read from.
#[derive(Drop)]
pub enum Text<F> {
    Input(Stdin),
    File(F),
}

impl<F: Read> Read for Text<F> {
    fn read(&mut self, buf: &mut [u8]) -> io::Result<usize> {
        match self {
            Text::Input(input) => input.read(buf),
            Text::File(file) => file.read(buf),
        }
    }
}

/// Whether the word stands for standard input, where a text is to be read.
pub fn is_input(name: &str) -> bool {
    name == DASH
}

/// Opens the text of this name, which is no folder.
pub fn open_text<R: Files>(
    rt: &R,
    name: &str,
    input: io::Result<Stdin>,
) -> io::Result<Text<R::File>> {
    if is_input(name) {
        Ok(Text::Input(input?))
    } else {
        Ok(Text::File(open_file(rt, name)?))
    }
}

/// Why standard input gives no second text.
pub fn not_twice() -> io::Error {
    io::Error::new(ErrorKind::InvalidInput, "standard input is the script")
}

// Opens the file of this name, which is no folder.
fn open_file<R: Files>(rt: &R, name: &str) -> io::Result<R::File> {
    let file = fs::open(rt, name)?;
    if file.metadata()?.is_dir() {
        Err(io::Error::from(ErrorKind::IsADirectory))
    } else {
        Ok(file)
    }
}

/// What standard output writes to, where it is open. It is asked before any file is opened, since
/// a file gets the number of a stream that is closed.
pub fn output_identity<R: Files>(rt: &R, output: &io::Result<Stdout>) -> Option<Identity>
    ensures closed { IsErr output.now → result ≡ None }
{
    match output {
        Ok(output) => identity_at(rt, OUTPUT, output.is_terminal()),
        Err(_) => None,
    }
}

fn identity_at<R: Files>(rt: &R, path: &str, is_screen: bool) -> Option<Identity> {
    match fs::metadata(rt, path) {
        Ok(metadata) => Some(Identity::of(&metadata, is_screen)),
        Err(_) => None,
    }
}

// What a text is read from, by what was opened.
fn text_identity<R: Files>(rt: &R, text: &Text<R::File>) -> Option<Identity> {
    match text {
        Text::Input(_) => identity_at(rt, INPUT, false),
        Text::File(file) => match file.metadata() {
            Ok(metadata) => Some(Identity::of(&metadata, false)),
            Err(_) => None,
        },
    }
}

// What the file that a certificate is written into may not be.
#[derive(Clone, Copy)]
enum Holder {
    // The script's file.
    Script,
    // That of the certificate which is read.
    Cert,
    // What standard output writes to.
    Output,
}

impl Holder {
    fn why(self) -> &'static str {
        match self {
            Holder::Script => "it is the script's file",
            Holder::Cert => "it is the certificate's file",
            Holder::Output => "it is standard output",
        }
    }
}

fn is_held(own: Option<Identity>, file: Identity) -> bool
    ensures { IsTrue result ↔ IsHeld own file }
{
    match own {
        Some(own) => own.is_written_by(file),
        None => false,
    }
}

// What the file that a certificate is to be written into is, if it may not be written for that.
// Where none is read, `cert` is none.
fn holder_of(
    file: Identity,
    script: Option<Identity>,
    cert: Option<Identity>,
    output: Option<Identity>,
) -> Option<Holder>
    ensures script { result ≡ Some Holder.Script ↔ IsHeld script file }
    ensures cert { result ≡ Some Holder.Cert
        ↔ ((IsHeld script file → ⊥) × IsHeld cert file) }
    ensures output { result ≡ Some Holder.Output
        ↔ ((IsHeld script file → ⊥) × (IsHeld cert file → ⊥) × IsHeld output file) }
    ensures free { result ≡ None ↔ ((IsHeld script file → ⊥) × (IsHeld cert file → ⊥)
        × (IsHeld output file → ⊥)) }
{
    if is_held(script, file) {
        Some(Holder::Script)
    } else if is_held(cert, file) {
        Some(Holder::Cert)
    } else if is_held(output, file) {
        Some(Holder::Output)
    } else {
        None
    }
}

/// Makes the certificate's file, new or emptied, or nothing where none is to be kept: where the
/// word says so, or where there is no script. The script's own file and what standard output writes
/// to are refused, and left as they are.
pub fn make_cert<R: Files>(
    rt: &R,
    name: &str,
    script: &io::Result<Text<R::File>>,
    output: Option<Identity>,
) -> io::Result<Option<R::File>>
    ensures { IsErr script.now → result ≡ Ok None }
{
    match script {
        Ok(script) if name != DASH => {
            let script = text_identity(rt, script);
            Ok(Some(make_file(rt, name, script, None, output)?))
        }
        _ => Ok(None),
    }
}

/// Makes the file that a certificate is written into anew, new or emptied, or nothing where there is
/// no script or no certificate to read. The files of these two and what standard output writes to
/// are refused, and left as they are.
pub fn make_anew<R: Files>(
    rt: &R,
    name: &str,
    script: &io::Result<Text<R::File>>,
    cert: &io::Result<Text<R::File>>,
    output: Option<Identity>,
) -> io::Result<Option<R::File>>
    ensures script { IsErr script.now → result ≡ Ok None }
    ensures cert { IsErr cert.now → result ≡ Ok None }
{
    match (script, cert) {
        (Ok(script), Ok(cert)) => {
            let script = text_identity(rt, script);
            let cert = text_identity(rt, cert);
            Ok(Some(make_file(rt, name, script, cert, output)?))
        }
        _ => Ok(None),
    }
}

// Makes the file of this name, new or emptied. What is compared is the file that was opened.
fn make_file<R: Files>(
    rt: &R,
    name: &str,
    script: Option<Identity>,
    cert: Option<Identity>,
    output: Option<Identity>,
) -> io::Result<R::File> {
    let file = OpenOptions::new().write(true).create(true).open(rt, name)?;
    let metadata = file.metadata()?;
    if let Some(holder) = holder_of(Identity::of(&metadata, false), script, cert, output) {
        return Err(io::Error::new(ErrorKind::InvalidInput, holder.why()));
    }
    if metadata.is_file() {
        file.set_len(0)?;
    }
    Ok(file)
}
