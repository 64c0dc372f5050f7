//! The two ends of a signal, and of a notifier, for the tests of services and of runs.
use lb_background::ready::{ReadyWatch, ServiceReadyNotifier, ready_pair};
use lb_background::shutdown::{ShutdownSignal, ShutdownWatch, shutdown_pair};
use lb_select_base::refusal::Refusal;
use std::alloc::Global;

/// The ends; the signal and the notifier can be taken.
pub struct Ends {
    pub signal: Option<ShutdownSignal>,
    pub watch: ShutdownWatch,
    pub notifier: Option<ServiceReadyNotifier>,
    pub ready: ReadyWatch,
}

impl Drop for Ends {
    fn drop(self) {
        let Ends {
            signal: _,
            watch: _,
            notifier: _,
            ready: _,
        } = self;
    }
}

impl Ends {
    /// Returns a new signal and a new notifier, each with its watch.
    pub fn new(alloc: Global) -> Result<Ends, Refusal> {
        let (signal, watch) = shutdown_pair(alloc)?;
        let (notifier, ready) = ready_pair(alloc)?;
        Ok(Ends {
            signal: Some(signal),
            watch,
            notifier: Some(notifier),
            ready,
        })
    }
}

/// Sends the end, where the signal was not taken.
pub fn send_end(signal: &mut Option<ShutdownSignal>) {
    if let Some(signal) = signal {
        signal.send(true);
    }
}
