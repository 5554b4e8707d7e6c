mod identifiers;
mod published;
mod results;
