// What C calls: each function of include/kihavute.h, with the clauses of the library's function that it calls. tools/c-exports writes
// this crate from the libraries kihavute and kihavute_*, where the functions are proved.
#![tactic(auto)]

mod appending_appending;
mod curves_arcs;
mod curves_curve_tables;
mod curves_curves;
mod curves_splines;
mod decimals;
mod lookups;
mod numbers;
mod paths_batches;
mod paths_listings;
mod paths_morphs;
mod paths_paths;
mod paths_queries;
mod paths_stored_paths;
mod points;
mod reading_lean;
mod reading_reading;
mod reports_checks;
mod reports_runs;
mod reports_seasons;
mod segments_segments;
mod strict_reading;
mod turns;
