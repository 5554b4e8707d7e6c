mod files;
mod observing;
mod orders;
mod seen;
mod signed;
mod signed_files;
mod steps;
mod stories;
