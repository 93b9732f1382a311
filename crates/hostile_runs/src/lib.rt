//! Tests: runs over devices that fail or cut every transfer. No other crate calls what is here.
//!
//! One join runs again and again, and each time another call of one device fails. All this is done twice: with whole transfers, and with
//! transfers of one byte. cases/ has the answers to broken texts.
#![tactic(auto)]

#[cfg(test)]
mod devices;
