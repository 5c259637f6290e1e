// The card: what the host calls from C, with numbers and byte ranges only. A number of eight bytes answers each call: a refusal, or what
// the call did (crate step, specs/Packed.antt, and this crate's specs).
#![tactic(auto)]

mod arriving; // arriving.rt: the broker's envelopes as they arrive
mod compared; // compared.rt: two recordings compared
mod data; // data.rt: the parts of message data
mod forwards; // forwards.rt: the forward service
mod fresh_record; // fresh_record.rt: a fresh record
mod given; // given.rt: message data from three ranges, and a call with them or without
mod mail; // mail.rt: the broker's envelopes
mod message; // message.rt: the CPDLC message
mod message_numbers; // message_numbers.rt: the book of message identification numbers
mod recorded; // recorded.rt: an APDU by itself
mod service; // service.rt: the primitives of the dialogue service
mod user; // user.rt: the primitives of the user, and what the host reports

pub use arriving::{peat_mail_end, peat_mail_fresh, peat_mail_take};
pub use compared::peat_compare;
pub use data::peat_data_part;
pub use forwards::{peat_forward_part, peat_forward_request, peat_read_forward};
pub use fresh_record::peat_fresh;
pub use mail::{peat_read_envelope, peat_write_envelope};
pub use message::{peat_read_message, peat_write_message};
pub use message_numbers::{
    peat_book_close, peat_book_count, peat_book_empty, peat_book_job, peat_book_open,
};
pub use recorded::{peat_read_apdu, peat_read_leading};
pub use service::{
    peat_d_abort_indication, peat_d_data_indication, peat_d_end_confirmation,
    peat_d_end_indication, peat_d_p_abort_indication, peat_d_start_confirmation,
    peat_d_start_indication,
};
pub use user::{
    peat_dsc_end_request, peat_dsc_end_response, peat_dsc_start_response, peat_end_request,
    peat_end_response, peat_message_request, peat_start, peat_start_response, peat_system_error,
    peat_timer_expiry, peat_user_abort,
};
