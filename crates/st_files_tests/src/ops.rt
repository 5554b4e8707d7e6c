mod refusals;
mod samples;
mod texts;
