// The table of document 01's bench figures and of those that the requests print (specs/Figures.antt), a frame that keeps 53 hundredths from being 51
// (specs/Sharpness.antt), and the theorems over them; no code.
#![tactic(auto)]
