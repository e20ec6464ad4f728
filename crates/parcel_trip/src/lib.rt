// A layer that was written into a parcel is read back from it: a theorem of the definitions. There is no code here.
