mod respelled;
mod wholes;
