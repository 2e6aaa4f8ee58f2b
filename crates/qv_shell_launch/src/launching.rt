//! A run is given its files, and what failed is said.

ghost use Rattle.std.specs.Prelude.{◌≡◌, IsSome};
ghost use Rattle.qv_io.specs.Count.{Rose};
ghost use Rattle.qv_shell.specs.Host.{SaysShort, StopsReading, StopsWriting};
ghost use Rattle.qv_shell.specs.Requests.{UnlessReads};

use crate::running::Run;
use qv_io::{NullSink, Sink, StdSink, StdSource};
use qv_shell::Status;
use qv_shell_host::{
    Report, Subject, fault_of, unread_script, unread_text, unwritten_output, unwritten_text,
};
use std::fs::File;
use std::io::{self, Read, Write};

/// What a run is given beside its words and the certificate that it writes: the script has this
/// name.
#[derive(Drop)]
pub struct Given<'a, R, C, W> {
    pub name: &'a str,
    pub script: io::Result<R>,
    pub cert: io::Result<C>,
    pub output: io::Result<W>,
}

// How a run ended, why the script, the certificate that is read and the output failed, where they
// did, and how many bytes the first two gave.
#[derive(Clone, Copy)]
struct Ended {
    status: Status,
    read: Option<io::Error>,
    given: u64,
    cert_read: Option<io::Error>,
    cert_given: u64,
    written: Option<io::Error>,
}

// Runs with this certificate to write.
fn launch<T: Run, R: Read + Drop, C: Read + Drop, W: Write + Drop, P: Sink>(
    run: &mut T,
    given: Given<'_, R, C, W>,
    cert_out: &mut P,
) -> Ended
    ensures ended { T.ended run.new result.status }
    ensures reading { StopsReading (T.request run.old)
        (SaysShort result.read result.given) (SaysShort result.cert_read result.cert_given)
        result.status }
    ensures writing { StopsWriting (T.request run.old)
        (IsSome result.written) (Rose (P.faults cert_out.old) (P.faults cert_out.new))
        result.status }
    // The certificate to read is read only where one is checked.
    ensures unread { UnlessReads (T.request run.old) (result.cert_given ≡ 0) }
{
    let mut script = StdSource::new(given.script);
    let mut cert = StdSource::new(given.cert);
    let mut output = StdSink::new(given.output);
    let status = run.end(&mut script, &mut cert, &mut output, cert_out);
    Ended {
        status,
        read: script.error(),
        given: script.given(),
        cert_read: cert.error(),
        cert_given: cert.given(),
        written: output.error(),
    }
}

/// Runs with no certificate to write, and says what failed: want of memory is said of this.
pub fn launch_alone<T: Run, R: Read + Drop, W: Write + Drop>(
    run: &mut T,
    given: Given<'_, R, File, W>,
    held: Subject<'_>,
    report: &Report,
) -> Status
    ensures { T.ended run.new result }
{
    let name = given.name;
    let ended = launch(run, given, &mut NullSink::new());
    let unread = unread_script(name, ended.read);
    let unwritten = unwritten_output(ended.written);
    report.end(fault_of(ended.status, held, unread, unwritten));
    ended.status
}

// Runs with a certificate of this name to write, which may not have been made, and says what
// failed.
fn launch_into<T: Run, R: Read + Drop, W: Write + Drop, P: Write + Drop>(
    run: &mut T,
    given: Given<'_, R, File, W>,
    cert_name: &str,
    cert: io::Result<P>,
    report: &Report,
) -> Status
    ensures { T.ended run.new result }
{
    let name = given.name;
    let mut cert = StdSink::new(cert);
    let ended = launch(run, given, &mut cert);
    let unread = unread_script(name, ended.read);
    let unwritten = unwritten_text(Subject::Cert(cert_name), ended.written, cert.error());
    report.end(fault_of(ended.status, Subject::Script(name), unread, unwritten));
    ended.status
}

/// Runs with the certificate of this name that was made, if one is to be kept.
pub fn launch_solve<T: Run, R: Read + Drop, W: Write + Drop, P: Write + Drop>(
    run: &mut T,
    given: Given<'_, R, File, W>,
    cert_name: &str,
    cert: io::Result<Option<P>>,
    report: &Report,
) -> Status
    ensures { T.ended run.new result }
{
    let held = Subject::Script(given.name);
    match cert {
        Ok(None) => launch_alone(run, given, held, report),
        Ok(Some(file)) => launch_into(run, given, cert_name, Ok(file), report),
        Err(why) => launch_into::<T, R, W, P>(run, given, cert_name, Err(why), report),
    }
}

/// Runs with a certificate of this name to read, and none to write, and says what failed.
pub fn launch_check<T: Run, R: Read + Drop, C: Read + Drop, W: Write + Drop>(
    run: &mut T,
    given: Given<'_, R, C, W>,
    cert_name: &str,
    report: &Report,
) -> Status
    ensures { T.ended run.new result }
{
    let name = given.name;
    let ended = launch(run, given, &mut NullSink::new());
    let unread = unread_text(name, cert_name, ended.read, ended.cert_read);
    let unwritten = unwritten_output(ended.written);
    report.end(fault_of(ended.status, Subject::Script(name), unread, unwritten));
    ended.status
}

// Runs with a certificate of this name to read, and a file of this name to write it into anew, which
// may not have been made, and says what failed.
fn launch_anew<T: Run, R: Read + Drop, C: Read + Drop, W: Write + Drop, P: Write + Drop>(
    run: &mut T,
    given: Given<'_, R, C, W>,
    cert_name: &str,
    anew: (&str, io::Result<P>),
    report: &Report,
) -> Status
    ensures { T.ended run.new result }
{
    let name = given.name;
    let (to, file) = anew;
    let mut file = StdSink::new(file);
    let ended = launch(run, given, &mut file);
    let unread = unread_text(name, cert_name, ended.read, ended.cert_read);
    let unwritten = unwritten_text(Subject::New(to), ended.written, file.error());
    report.end(fault_of(ended.status, Subject::Script(name), unread, unwritten));
    ended.status
}

/// Runs with a certificate of this name to read, and the file of this name that was made to write it
/// into anew, if one is to be.
pub fn launch_trim<T: Run, R: Read + Drop, C: Read + Drop, W: Write + Drop, P: Write + Drop>(
    run: &mut T,
    given: Given<'_, R, C, W>,
    cert_name: &str,
    anew: (&str, io::Result<Option<P>>),
    report: &Report,
) -> Status
    ensures { T.ended run.new result }
{
    let (to, made) = anew;
    match made {
        Ok(None) => launch_check(run, given, cert_name, report),
        Ok(Some(file)) => launch_anew(run, given, cert_name, (to, Ok(file)), report),
        Err(why) => launch_anew::<T, R, C, W, P>(run, given, cert_name, (to, Err(why)), report),
    }
}
