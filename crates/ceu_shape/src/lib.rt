//! The code of a kernel as a definition: the lines of each statement and expression, how they are put together, and the image.
#![tactic(auto)]
