/// The greatest length of a script in bytes: 4 MiB.
pub const LONGEST_SCRIPT: usize = 4_194_304;
