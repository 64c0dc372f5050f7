//! Laws of selection, for users to cite: functions that do nothing at run time, and whose contracts hold for every set and key. They are
//! about the definitions that the selectors' contracts cite.
pub use lb_select::{laws as backends, ring_laws as ring, weight_laws as weighted};
