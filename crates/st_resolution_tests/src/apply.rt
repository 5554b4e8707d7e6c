mod resolutions;
mod walking;
