//! Faulty words, the findings in a text and in a report, and warnings.

mod finding;
mod line;
mod run;
