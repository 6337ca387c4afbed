//! A list of edits of the small LUKS2 volume, by the model in testdata/oracle.

pub(crate) mod table;
