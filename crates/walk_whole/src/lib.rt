// Each layer of a walk is the one fitted with all parts of the clip held together: a theorem of the definitions. There
// is no code here.
