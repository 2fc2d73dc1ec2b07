// Whether a certificate by trails whose lemmas tell the balances of pools is accepted.
#![tactic(auto)]

mod certify;
mod ends;
mod fill;
mod texts;

pub use certify::{check_certificate, gaps_proved};
pub use texts::first_other;
