// The calls of the engine under the names that C gives them (include/ckpt.h), for callers in Rattle. Each is held to its outcome under
// documents 01 and 02, for all bytes, lengths and numbers; engine_c exports the same to C.
#![tactic(auto)]

pub use audit::audit as ckpt_audit;
pub use failure::failed as ckpt_failed;
pub use grounds::grounds as ckpt_grounds;
pub use layout::fresh as ckpt_fresh;
pub use lines::line as ckpt_line;
pub use resend::resend as ckpt_resend;
pub use steps::{checkpoint as ckpt_checkpoint, receipt as ckpt_receipt, send as ckpt_send};
