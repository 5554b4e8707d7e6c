mod keys;
mod samples;
mod signed;
