//! Tests of `p3_domain` over BabyBear. The expected values are those of this program in Python,
//! which takes products over a domain's points in place of powers:
//!
//!     P, G = 2013265921, 31  # BabyBear, and its extension by a root of X^4 - 11
//!     def inv(x): return pow(x, P - 2, P)
//!     def coset(s, k): return [s * pow(G, i * (15 << 27 - k), P) % P for i in range(1 << k)]
//!     def at(c, x): return sum(a * pow(x, i, P) for i, a in enumerate(c)) % P
//!     def mul(a, b):
//!         c = [0] * 4
//!         for i in range(16):
//!             c[(i // 4 + i % 4) % 4] += a[i // 4] * b[i % 4] * (11 if i // 4 + i % 4 > 3 else 1)
//!         return [x % P for x in c]
//!     def minus(z, x): return [(z[0] - x) % P] + z[1:]
//!     def scaled(z, x): return [a * x % P for a in z]
//!     def inverse(a):
//!         r = [1, 0, 0, 0]
//!         for bit in bin(P ** 4 - 2)[2:]: r = mul(mul(r, r), a) if bit == '1' else mul(r, r)
//!         return r
//!     def vanishing(s, k, z, but=-1):
//!         r = [inv(pow(s, 1 << k, P)), 0, 0, 0]
//!         for i, x in enumerate(coset(s, k)): r = r if i == but else mul(r, minus(z, x))
//!         return r
//!     def selectors(s, k, z):
//!         first, last = (scaled(vanishing(s, k, z, i), s) for i in (0, (1 << k) - 1))
//!         transition = scaled(minus(z, coset(s, k)[-1]), inv(s))
//!         return [first, last, transition, inverse(vanishing(s, k, z))]
//!     def value(c, z):
//!         r = [0, 0, 0, 0]
//!         for a in reversed(c): r = minus(mul(r, z), -a)
//!         return r
//!     def through(points, c):  # the polynomial through the values of c at these points
//!         out = [0] * len(points)
//!         for i, x in enumerate(points):
//!             term = [1]
//!             for y in points[:i] + points[i + 1:]:
//!                 term = [a - y * b for a, b in zip([0] + term, term + [0])]
//!             scale = at(c, x) * inv(at(term, x))
//!             out = [(a + scale * b) % P for a, b in zip(out, term)]
//!         return out
//!     for s, k in (1, 3), (31, 2), (7, 0): print(coset(s, k), vanishing(s, k, [2, 7, 1, 8]))
//!     for s, k, z in (1, 3, [2, 7, 1, 8]), (31, 2, [6, 1, 8, 3]): print(selectors(s, k, z))
//!     for s, k, t, m in (1, 1, 31, 2), (7, 2, 217, 1):
//!         print([[v[0] for v in selectors(s, k, [x, 0, 0, 0])] for x in coset(t, m)])
//!     C, Z = [3, 1, 4, 1, 5, 9, 2, 6], [2, 7, 1, 8]
//!     for n in 1, 2, 4:
//!         print([(coset(31, 3)[i], value(through(coset(31, 3)[i::n], C), Z)) for i in range(n)])
//!     print(value(C, Z))

mod numbers;
mod pieces;
mod points;
mod selectors;
