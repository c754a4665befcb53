//! What a host answers.
ghost use Rattle.std.specs.Prelude.{◌≡◌, ℕ, List, IfErr, IfOk, IfSome, OnOk};
ghost use Rattle.spk_reading.specs.Meaning.{Says};
ghost use Rattle.spk_reading.specs.View.{heard_view};
ghost use Rattle.spk_host.specs.Inputs as calls;
ghost use Rattle.spk_host.specs.View.{AreWhole};
ghost use Rattle.spk_plant_host.specs.Steps as step;

use crate::fault::HostCause;
use spk_host::{Host, HostFault, Out};
use spk_reading::Heard;

/// A call that was refused hands out nothing; want of memory ends the run.
fn answered(answer: Result<Out, HostFault>) -> Result<Option<Out>, HostCause>
    ensures { result ≡ step.answered answer }
{
    match answer {
        Ok(out) => Ok(Some(out)),
        Err(HostFault::NoMemory) => Err(HostCause::NoMemory),
        Err(_) => Ok(None),
    }
}

/// A session is to begin.
pub(crate) fn begin(host: &mut Host, now: u64) -> Result<Option<Out>, HostCause>
    ensures answers { IfOk result
        (λ out. step.Answers (calls.Connected now) host.old host.new out) }
    ensures whole { IfOk result (λ out. IfSome out (λ o. AreWhole o)) }
    ensures memory { IfErr result (λ e. e ≡ HostCause.NoMemory) }
{
    answered(host.connected(now))
}

/// A packet came that says this.
pub(crate) fn hear(host: &mut Host, heard: Heard, now: u64) -> Result<Option<Out>, HostCause>
    requires { (bytes : List ℕ) × Says bytes (heard_view heard) }
    ensures answers { IfOk result
        (λ out. step.Answers (calls.Heard (heard_view heard) now) host.old host.new out) }
    ensures whole { IfOk result (λ out. IfSome out (λ o. AreWhole o)) }
    ensures memory { IfErr result (λ e. e ≡ HostCause.NoMemory) }
{
    answered(host.heard(heard, now))
}

/// A moment passed.
pub(crate) fn tick(host: &mut Host, now: u64) -> Result<Option<Out>, HostCause>
    ensures answers { IfOk result (λ out. step.Answers (calls.Ticked now) host.old host.new out) }
    ensures whole { IfOk result (λ out. IfSome out (λ o. AreWhole o)) }
    ensures memory { IfErr result (λ e. e ≡ HostCause.NoMemory) }
{
    answered(host.tick(now))
}
