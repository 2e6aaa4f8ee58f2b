//! Why play gives up.

pub use qv_meter::PlayFault;
