//! Tests of the public calls of all crates, for properties that tables of cases can't show: bounds that a caller's own
//! type meets, readers and writers that fail, iterators, equality, copies, conversions and refusals.
//!
//! - `attribute_runs`: edits of runs against a plain list of the columns' attributes.
//! - `attributes`: defaults, order, conversions, copies and equality of attributes, changes, cells and ranges.
//! - `by_value`: values of each family of actions, which are written, and read back as they are.
//! - `changes`: conversions, copies and equality of changes; lists of them that write cells with other changes
//!   between; and prefixes of texts.
//! - `clustered_rows`: edits of a row against the same edits of a vector of cells.
//! - `clusters`: clusters of some of a line's cells, and copies of them.
//! - `colors`: conversions and hashes of colours, hashes of enums.
//! - `commands`: commands without parts, commands that are appended to other bytes, commands that differ, and all
//!   selections.
//! - `debugs`: `Debug`: the whole text of plain values, and of those with private fields how it begins.
//! - `formats`: screens of one row in each format.
//! - `grids`: the texts of the lines of grids after some changes.
//! - `large`: large inputs of a terminal: chunks of 5 KB and 1 MB in one call, a held run, a command, replies
//!   and a list as long.
//! - `large_screens`: screens of 300 columns and 100 rows: updates, patches, a new size, and long lines.
//! - `large_streams`: large inputs of parsers and lists, and of `run` and `show`.
//! - `left_early`: parsers whose pieces were dropped before their end.
//! - `line_forms`: a line in each of its forms: of cells, clustered, and opened to cells again.
//! - `lines`: equality and copies of lines, cells that are lent from texts, iterators at their end, and
//!   callbacks that are called with texts.
//! - `partial`: readers and writers that give and take a few bytes at a time, and fail.
//! - `pieces`: texts that are lent and actions between them, pieces that are left before their end, and parsers
//!   that have failed.
//! - `positions`: positions in a list of parameters: copied, and taken to another list.
//! - `prefixes`: copies of the control sequence at the start of some bytes.
//! - `recorded`: small recordings of each version, whole, torn and wrong; and a large one; and times.
//! - `renderings`: the bytes that are written for a change.
//! - `scripts`: random scripts of changes on a small surface, against a plain program that draws them column
//!   by column.
//! - `sequences`: iterators at their end, defaults and equality of control sequences.
//! - `service`: `show` on readers and writers that give and take a few bytes at a time, and fail.
//! - `streams`: callbacks, copies of actions, the bytes that are controls, and framers that have not failed.
//! - `surfaces`: surfaces and sequences of changes: queries of them, copies, and lists that are added.
//! - `texts`: texts of errors, and links that are made and not read.
//! - `updates`: `run` on readers and writers that give and take a few bytes at a time, and fail.
//! - `widths`: width values of a caller's own, in cells and on screens, and terminals that are fed nothing.
#![tactic(auto)]

#[cfg(test)]
mod attribute_runs;
#[cfg(test)]
mod attributes;
#[cfg(test)]
mod by_value;
#[cfg(test)]
mod changes;
#[cfg(test)]
mod clustered_rows;
#[cfg(test)]
mod clusters;
#[cfg(test)]
mod colors;
#[cfg(test)]
mod commands;
#[cfg(test)]
mod debugs;
#[cfg(test)]
mod formats;
#[cfg(test)]
mod grids;
#[cfg(test)]
mod large;
#[cfg(test)]
mod large_screens;
#[cfg(test)]
mod large_streams;
#[cfg(test)]
mod left_early;
#[cfg(test)]
mod line_forms;
#[cfg(test)]
mod lines;
#[cfg(test)]
mod partial;
#[cfg(test)]
mod pieces;
#[cfg(test)]
mod positions;
#[cfg(test)]
mod prefixes;
#[cfg(test)]
mod recorded;
#[cfg(test)]
mod renderings;
#[cfg(test)]
mod scripts;
#[cfg(test)]
mod sequences;
#[cfg(test)]
mod service;
#[cfg(test)]
mod streams;
#[cfg(test)]
mod surfaces;
#[cfg(test)]
mod texts;
#[cfg(test)]
mod updates;
#[cfg(test)]
mod widths;
