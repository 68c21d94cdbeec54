//! Tests of what no clause says: that calls succeed, the bytes of the format, and a stop after each call of
//! the device.
mod scenes;
mod scripts;
mod steps;
