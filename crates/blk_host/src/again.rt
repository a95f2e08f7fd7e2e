// System calls that a signal interrupted.
ghost use Rattle.std.specs.Prelude.{◌≡◌, ◌≢◌, ◌≤◌, IfOk, IfErr, IfSome, IfNone, IsErrAnd, OnOk, length};
ghost use Rattle.std.specs.IoError.{error_kind};
ghost use Rattle.std.specs.Io.KnownBytes.{ReadConsumes, WriteAppends};

use std::io;
use std::io::{ErrorKind, Read, Write};

/// Makes a system call, and makes it again as long as a signal interrupts it.
pub fn again<T, F: Fn() -> io::Result<T>>(call: F) -> io::Result<T>
    requires { F.IsAlwaysCallable call }
    ensures made { OnOk result (F.post call result) }
    ensures retried { IfErr result (λ error. error_kind error ≢ ErrorKind.Interrupted) }
{
    for _ in 0..u64::MAX {
        if let Some(answer) = unless_interrupted(call()) {
            return answer;
        }
    }
    Err(io::Error::from(ErrorKind::TimedOut))
}

/// Reads once, and reads again as long as a signal interrupts it.
pub fn read_again<T: Read>(input: &mut T, out: &mut [u8]) -> io::Result<usize>
    ensures within { IfOk result (λ n. n ≤ length out.old) }
    ensures bytes { ReadConsumes (T.remaining input.old) (T.remaining input.new) result out.new }
    ensures retried { IfErr result (λ error. error_kind error ≢ ErrorKind.Interrupted) }
{
    for _ in 0..u64::MAX {
        if let Some(answer) = unless_interrupted(input.read(out)) {
            return answer;
        }
    }
    Err(io::Error::from(ErrorKind::TimedOut))
}

/// Writes once, and writes again as long as a signal interrupts it.
pub fn write_again<T: Write>(output: &mut T, bytes: &[u8]) -> io::Result<usize>
    ensures within { IfOk result (λ n. n ≤ length bytes.now) }
    ensures bytes { WriteAppends (T.contents output.old) (T.contents output.new) result bytes.now }
    ensures retried { IfErr result (λ error. error_kind error ≢ ErrorKind.Interrupted) }
{
    for _ in 0..u64::MAX {
        if let Some(answer) = unless_interrupted(output.write(bytes)) {
            return answer;
        }
    }
    Err(io::Error::from(ErrorKind::TimedOut))
}

// The answer of a call, or None where a signal interrupted it.
fn unless_interrupted<T>(answer: io::Result<T>) -> Option<io::Result<T>>
    ensures same { IfSome result (λ given. given ≡ answer) }
    ensures whole { IfSome result (λ given. IfErr given (λ error. error_kind error ≢ ErrorKind.Interrupted)) }
    ensures interrupted { IfNone result (IsErrAnd answer (λ error. error_kind error ≡ ErrorKind.Interrupted)) }
{
    match answer {
        Err(error) if error.kind() == ErrorKind::Interrupted => None,
        answer => Some(answer),
    }
}
