//! Tests that calls succeed, of what is lent after each change, of the calls of the device, of the count of
//! looks, and of refused memory and failed calls.
mod maps;
mod random;
mod refused;
mod scenes;
mod scripts;
mod steps;
