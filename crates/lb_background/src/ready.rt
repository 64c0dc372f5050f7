//! How a service reports that it is ready: a notifier that reports it once, and watches that see it.
ghost use Rattle.std.specs.Prelude.{◌≡◌, IfErr};

use lb_select_base::refusal::Refusal;
use std::alloc::Global;
use std::sync::Arc;
use std::sync::atomic::AtomicBool;
use std::sync::atomic::Ordering::SeqCst;

/// A notifier that reports once that a service is ready. One that is dropped reports nothing.
#[derive(Drop)]
pub struct ServiceReadyNotifier {
    line: Arc<AtomicBool>,
}

/// A watch of whether a service is ready.
#[derive(Drop)]
pub struct ReadyWatch {
    line: Arc<AtomicBool>,
}

/// Returns a notifier that has reported nothing, and a watch of it.
///
/// # Errors
///
/// `OutOfMemory` where memory is refused.
pub fn ready_pair(alloc: Global) -> Result<(ServiceReadyNotifier, ReadyWatch), Refusal>
    ensures { IfErr result (λ e. e ≡ Refusal.OutOfMemory) }
{
    let line = Arc::new(alloc, AtomicBool::new(false))?;
    let watch = ReadyWatch {
        line: Arc::try_clone(&line)?,
    };
    Ok((ServiceReadyNotifier { line }, watch))
}

impl ServiceReadyNotifier {
    /// Reports that the service is ready. It takes no memory.
    pub fn notify_ready(self) {
        self.line.store(true, SeqCst);
    }
}

impl ReadyWatch {
    /// Returns whether the notifier reported that the service is ready, without taking memory.
    pub fn is_ready(&self) -> bool {
        self.line.load(SeqCst)
    }
}
