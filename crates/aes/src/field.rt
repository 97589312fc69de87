// The field of 256 elements and the two substitution tables of FIPS 197: each table is a static array, proved entry by
// entry from its rule, inverse in the field and affine map, and read by one function alone. The two files differ in every
// entry, and a function over both tables would be longer than the two.
pub(crate) mod inverse_substitution;
pub(crate) mod substitution;
